// A number that is a place of a shelf.
ghost use Rattle.std.specs.Prelude.{◌≡◌, ◌≤◌};
ghost use Rattle.std.specs.Result.{result_map_both};
ghost use Rattle.shelf.specs.Places.{is_place, if_so};

use crate::lengths::refusal;
use crate::traits::PLACES;
use model::signals::Fault;

#[derive(Clone, Copy)]
pub(crate) struct Place {
    pub(crate) number: usize,
    ghost from_one: { 1 ≤ number },
    ghost to_last: { number ≤ 160 },
}

impl TryFrom<usize> for Place {
    type Error = Fault;

    ghost try_from_gives = { λ n r. result_map_both (λ p. p.number) (λ e. e) r ≡ if_so (is_place n) n };

    fn try_from(number: usize) -> Result<Place, Fault> {
        if !(1..=PLACES).contains(&number) {
            return Err(refusal());
        }
        Ok(Place { number })
    }
}
