// Cells that a caller lends to a shelf, one for each element that it can ever hold.
ghost use Rattle.std.specs.Prelude.{◌≡◌, ◌≤◌, length};
ghost use Rattle.std.specs.Result.{result_map_both};
ghost use Rattle.shelf.specs.Places.{most, counted};

use crate::lengths::refusal;
pub use crate::packed::Packed;
pub use crate::rows::Rows;
use crate::traits::{LONGEST, PLACES};
use model::signals::Fault;

#[derive(Drop)]
pub struct Cells<'a, E> {
    pub(crate) cells: &'a mut [E],
    ghost enough: { most ≤ length cells.now },
}

impl<'a, E> Cells<'a, E> {
    pub fn counted(cells: &'a mut [E]) -> Result<Cells<'a, E>, Fault>
        ensures { result_map_both (λ c. c.cells.now) (λ e. e) result ≡ counted cells.old }
    {
        if cells.len() < PLACES * LONGEST {
            return Err(refusal());
        }
        Ok(Cells { cells })
    }
}
