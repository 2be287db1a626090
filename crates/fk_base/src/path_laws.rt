ghost use Rattle.fk_base.specs.PathLaws.{ReadsItsText, TextReadsBack};

/// A law: a text that means a path is that path's text.
pub fn reads_its_text()
    ensures { ReadsItsText }
{}

/// A law: the text of a path means that path.
pub fn text_reads_back()
    ensures { TextReadsBack }
{}
