// The kernel's own rights, by name.
ghost use Rattle.std.specs.Prelude.{◌≡◌};
ghost use Rattle.rights.specs.Names.{place, right_names};

use model::rights::{
    ADDRRTS, APPRTS, CALLRTS, DLTRTS, ENVRTS, ERASERTS, GETRTS, KILLRTS, LOADRTS, MDFYRTS, PUTRTS,
    STORTS, UCNFRTS,
};

pub fn right_by_name(text: &str) -> Option<u8>
    ensures { result ≡ place right_names text.now 0 }
{
    match text {
        "DLTRTS" => Some(DLTRTS),
        "ENVRTS" => Some(ENVRTS),
        "LOADRTS" => Some(LOADRTS),
        "STORTS" => Some(STORTS),
        "APPRTS" => Some(APPRTS),
        "KILLRTS" => Some(KILLRTS),
        "GETRTS" => Some(GETRTS),
        "PUTRTS" => Some(PUTRTS),
        "ADDRRTS" => Some(ADDRRTS),
        "MDFYRTS" => Some(MDFYRTS),
        "UCNFRTS" => Some(UCNFRTS),
        "CALLRTS" => Some(CALLRTS),
        "ERASERTS" => Some(ERASERTS),
        _ => None,
    }
}
