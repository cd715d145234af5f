// Answers of the two rules that are written out, and proved of their definitions.
ghost use Rattle.rights.specs.Table.{Table};

pub fn table_holds()
    ensures { Table }
{}
