// The rules of texts of CAP documents, by their element's class.

#![tactic(auto)]

ghost use Rattle.std.specs.Prelude.{◌≡◌};
ghost use Rattle.rules.specs.Codes.{list_of};
ghost use Rattle.rules.specs.Faults.{fault_number, rule_number};
ghost use Rattle.rules.specs.Texts.{name_rule, time_rule, polygon_rule, circle_rule, text_rule};

use codes::list;
use codes::texts::code_of;
use schema::class;
use sheet::ranges::all_name_bytes;

// Why a document is refused.
#[derive(Clone, Copy, Debug, PartialEq, Eq)]
pub enum Fault {
    TooLong,
    Form,
    Element,
    Code,
    Time,
    Name,
    Shape,
}

// Its number.
impl From<Fault> for u8 {
    ghost from_gives = { λ f n. n ≡ fault_number f };

    fn from(f: Fault) -> u8 {
        match f {
            Fault::TooLong => 14,
            Fault::Form => 15,
            Fault::Element => 16,
            Fault::Code => 17,
            Fault::Time => 18,
            Fault::Name => 19,
            Fault::Shape => 22,
        }
    }
}

// How many bytes sender and identifier may have.
const MAX_NAME: usize = 128;

// The rule of sender and identifier.
#[tactic(auto, unfolding(crate::specs::Texts::name_rule))]
fn name_rule(t: &[u8]) -> Result<(), Fault>
    ensures { rule_number result ≡ name_rule t.now }
{
    if MAX_NAME < t.len() {
        return Err(Fault::TooLong);
    }
    if t.is_empty() || !all_name_bytes(t) {
        return Err(Fault::Name);
    }
    Ok(())
}

// The code list of a class.
fn list_of(class: usize) -> Option<usize>
    ensures { result ≡ list_of class }
{
    match class {
        class::STATUS => Some(list::STATUS),
        class::MSG_TYPE => Some(list::MSG_TYPE),
        class::SCOPE => Some(list::SCOPE),
        class::CATEGORY => Some(list::CATEGORY),
        class::RESPONSE_TYPE => Some(list::RESPONSE_TYPE),
        class::URGENCY => Some(list::URGENCY),
        class::SEVERITY => Some(list::SEVERITY),
        class::CERTAINTY => Some(list::CERTAINTY),
        _ => None,
    }
}

// The rule of times.
#[tactic(auto, unfolding(crate::specs::Texts::time_rule))]
fn time_rule(t: &[u8]) -> Result<(), Fault>
    ensures { rule_number result ≡ time_rule t.now }
{
    time::read_time(t).ok_or(Fault::Time)?;
    Ok(())
}

// The rule of polygons.
#[tactic(auto, using(crate::proofs::Numbers::polygon_broken), unfolding(crate::specs::Texts::polygon_rule))]
fn polygon_rule(t: &[u8]) -> Result<(), Fault>
    ensures { rule_number result ≡ polygon_rule t.now }
{
    if polygon::is_polygon(t) {
        Ok(())
    } else {
        Err(Fault::Shape)
    }
}

// The rule of circles.
#[tactic(auto, unfolding(crate::specs::Texts::circle_rule))]
fn circle_rule(t: &[u8]) -> Result<(), Fault>
    ensures { rule_number result ≡ circle_rule t.now }
{
    circle::read_circle(t).ok_or(Fault::Shape)?;
    Ok(())
}

// Whether a text of a class keeps to its rule; a class without one takes any text.
#[tactic(auto, unfolding(crate::specs::Texts::text_rule, crate::specs::Texts::code_rule))]
pub fn text_rule(class: usize, t: &[u8]) -> Result<(), Fault>
    ensures { rule_number result ≡ text_rule class t.now }
{
    match class {
        class::IDENTIFIER | class::SENDER => name_rule(t),
        class::SENT | class::EFFECTIVE | class::ONSET | class::EXPIRES => time_rule(t),
        class::POLYGON => polygon_rule(t),
        class::CIRCLE => circle_rule(t),
        _ => match list_of(class) {
            Some(list) if code_of(list, t) == 0 => Err(Fault::Code),
            _ => Ok(()),
        },
    }
}
