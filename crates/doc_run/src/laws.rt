// How a site file's folders are named. Each function is one law, and does nothing.
ghost use Rattle.doc_run.specs.Named.{DocumentsNameTheirFolders, ProgramsNameNoFolder};

/// Of the site of a site file: the program of each table of documents names, in the place of a script's, the folder of that
/// table.
pub fn documents_name_their_folders()
    ensures { DocumentsNameTheirFolders }
{}

/// What may be written as a script's program names no folder, whatever its text.
pub fn programs_name_no_folder()
    ensures { ProgramsNameNoFolder }
{}
