// How a rule reads codes.
ghost use Rattle.std.specs.Prelude.{◌≡◌, cond, nat_lt};

// A code below the limit is itself, and any other is read as 0.
pub(crate) fn reading(code: u32, limit: u32) -> u32
    ensures { result ≡ cond (nat_lt code limit) code 0 }
{
    if code < limit { code } else { 0 }
}
