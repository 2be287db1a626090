ghost use Rattle.fk_law_client.specs.Lines.{ClientLinesAre, OtherLinesAre};

/// A law: what each public line is: of a publication, or of a client's operation.
pub fn every_line_has_its_operation()
    ensures client { ClientLinesAre }
    ensures other { OtherLinesAre }
{}
