// Sheets as 15 numbers, as C hands them in and gets them: what each of the 15 stands for is in include/warnbox.h and in specs/Numbers.antt.

#![tactic(auto)]

mod from_numbers; // from_numbers.rt: what numbers say
mod to_numbers; // to_numbers.rt: the numbers of a sheet

ghost use Rattle.std.specs.Prelude.{◌≡◌};
ghost use Rattle.numbers.specs.Numbers.{numbers_sheet, sheet_answer, numbers_of};

use crate::from_numbers::{cap_from, name_from, sender_from, warn_from};
use crate::to_numbers::{cap_numbers, warn_numbers};
use sheet::Found;

// The sheet that numbers stand for, if they stand for one.
#[tactic(auto, unfolding(crate::specs::Numbers::numbers_sheet))]
pub fn numbers_sheet(n: &[u64; 15]) -> Option<Found>
    ensures { sheet_answer result ≡ numbers_sheet n.now }
{
    if let Some(facts) = cap_from(n) {
        return Some(Found::Cap(facts, sender_from(n), name_from(n)));
    }
    warn_from(n).map(Found::Warn)
}

// The numbers of a sheet that was found in a text.
#[tactic(auto, unfolding(crate::specs::Numbers::numbers_of))]
pub fn numbers_of(found: Found) -> [u64; 15]
    ensures { result ≡ numbers_of found }
{
    match found {
        Found::Cap(facts, sender, name) => cap_numbers(facts, sender, name),
        Found::Warn(facts) => warn_numbers(facts),
    }
}
