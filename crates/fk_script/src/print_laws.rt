ghost use Rattle.fk_script.specs.PrintLaws.{GeneratedIsMeant, PrintedReadsBack};
ghost use Rattle.fk_script.specs.WorkedScripts.{AreDrawn, IsPrinted};

/// Law: what is printed of a deployment that some bytes mean reads back as the same deployment.
pub fn printed_reads_back()
    ensures { PrintedReadsBack }
{}

/// Law: some bytes mean each generated deployment.
pub fn generated_is_meant()
    ensures { GeneratedIsMeant }
{}

/// Law: the definitions give these draws and this file, which were found without them.
pub fn worked_script()
    ensures draws { AreDrawn }
    ensures printed { IsPrinted }
{}
