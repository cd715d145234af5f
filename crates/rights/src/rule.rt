// What the kernel asks of a rights rule; it is generic in the rule.
ghost use Rattle.std.specs.Prelude.{◌≡◌};
ghost use Rattle.model.specs.Model.{Rule, Laws, InvalidAsZero};
ghost use Rattle.model.specs.Plan.{code_ok};

use model::signals::{Fault, Signal};

pub trait RightsRule {
    ghost rule: { Rule };

    fn is_valid(&self, code: u32) -> bool
        ensures { result ≡ rule.valid code };

    fn does_grant(&self, code: u32, right: u8) -> bool
        ensures { result ≡ rule.grants code right };

    fn restricted(&self, code: u32, mask: u32) -> u32
        ensures { result ≡ rule.restrict code mask };

    fn stripped(&self, code: u32) -> u32
        ensures { result ≡ rule.strip code };

    fn with_delete(&self, code: u32) -> u32
        ensures { result ≡ rule.add_delete code };

    fn admitted(&self, given: u32, new: u32) -> u32
        ensures { result ≡ rule.admit given new };

    fn everything(&self) -> u32
        ensures { result ≡ rule.full };

    ghost lawful: { Laws rule };

    ghost invalid: { InvalidAsZero rule };

    // A code that someone gives must be valid.
    final fn check(&self, code: u32) -> Result<(), Fault>
        ensures { result ≡ code_ok rule code }
    {
        if self.is_valid(code) {
            Ok(())
        } else {
            Err(Fault::new(Signal::Smask, 0))
        }
    }
}
