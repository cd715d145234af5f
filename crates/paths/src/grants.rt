ghost use Rattle.std.specs.Prelude.{◌≡◌};
ghost use Rattle.model.specs.Plan.{grants_all};

use rights::rule::RightsRule;

// The code grants every right of the list.
pub(crate) fn grants_all<R: RightsRule>(rule: &R, code: u32, rights: &[u8]) -> bool
    ensures { result ≡ grants_all R.RightsRule.rule code rights.now }
{
    rights.iter().all(|right| rule.does_grant(code, *right))
}
