// Values by their numbers: a value's number is its index in its list, counted from 1. A number that is none gives the last.
ghost use Rattle.std.specs.Prelude.{◌≡◌, ℕ, true};
ghost use Rattle.std.proofs.Common.{rules};
ghost use Rattle.codes.specs.Lists.{lists, is_number, status, msg_type, scope, urgency, severity, certainty};

use crate::{Certainty, MessageType, Scope, Severity, Status, Urgency, list};

// The codes of a list as values.
pub trait Code: Copy {
    ghost LIST: { ℕ };

    ghost value_at: { ℕ → Self };

    ghost number_of: { Self → ℕ };

    const LIST: usize;

    fn from_number(k: usize) -> Self
        ensures { result ≡ value_at k };

    fn number(self) -> usize
        ensures { result ≡ number_of self };

    // A value's number is one of the list, and gives the value back.
    ghost listed: { (x : Self) → is_number LIST (number_of x) ≡ true };

    ghost back: { (x : Self) → value_at (number_of x) ≡ x };
}

impl Code for MessageType {
    ghost use Rattle.codes.specs.Values.{message_at, message_number};

    ghost LIST = { msg_type };

    ghost value_at = { message_at };

    ghost number_of = { message_number };

    ghost listed = { unfold lists in unfold is_number in Prim.search rules };

    ghost back = { Prim.search rules };

    const LIST: usize = list::MSG_TYPE;

    fn from_number(k: usize) -> MessageType {
        match k {
            1 => MessageType::Alert,
            2 => MessageType::Update,
            3 => MessageType::Cancel,
            4 => MessageType::Ack,
            _ => MessageType::Error,
        }
    }

    fn number(self) -> usize {
        match self {
            MessageType::Alert => 1,
            MessageType::Update => 2,
            MessageType::Cancel => 3,
            MessageType::Ack => 4,
            MessageType::Error => 5,
        }
    }
}

impl Code for Status {
    ghost use Rattle.codes.specs.Values.{status_at, status_number};

    ghost LIST = { status };

    ghost value_at = { status_at };

    ghost number_of = { status_number };

    ghost listed = { unfold lists in unfold is_number in Prim.search rules };

    ghost back = { Prim.search rules };

    const LIST: usize = list::STATUS;

    fn from_number(k: usize) -> Status {
        match k {
            1 => Status::Actual,
            2 => Status::Exercise,
            3 => Status::System,
            4 => Status::Test,
            _ => Status::Draft,
        }
    }

    fn number(self) -> usize {
        match self {
            Status::Actual => 1,
            Status::Exercise => 2,
            Status::System => 3,
            Status::Test => 4,
            Status::Draft => 5,
        }
    }
}

impl Code for Scope {
    ghost use Rattle.codes.specs.Values.{scope_at, scope_number};

    ghost LIST = { scope };

    ghost value_at = { scope_at };

    ghost number_of = { scope_number };

    ghost listed = { unfold lists in unfold is_number in Prim.search rules };

    ghost back = { Prim.search rules };

    const LIST: usize = list::SCOPE;

    fn from_number(k: usize) -> Scope {
        match k {
            1 => Scope::Public,
            2 => Scope::Restricted,
            _ => Scope::Private,
        }
    }

    fn number(self) -> usize {
        match self {
            Scope::Public => 1,
            Scope::Restricted => 2,
            Scope::Private => 3,
        }
    }
}

impl Code for Urgency {
    ghost use Rattle.codes.specs.Values.{urgency_at, urgency_number};

    ghost LIST = { urgency };

    ghost value_at = { urgency_at };

    ghost number_of = { urgency_number };

    ghost listed = { unfold lists in unfold is_number in Prim.search rules };

    ghost back = { Prim.search rules };

    const LIST: usize = list::URGENCY;

    fn from_number(k: usize) -> Urgency {
        match k {
            1 => Urgency::Immediate,
            2 => Urgency::Expected,
            3 => Urgency::Future,
            4 => Urgency::Past,
            _ => Urgency::Unknown,
        }
    }

    fn number(self) -> usize {
        match self {
            Urgency::Immediate => 1,
            Urgency::Expected => 2,
            Urgency::Future => 3,
            Urgency::Past => 4,
            Urgency::Unknown => 5,
        }
    }
}

impl Code for Severity {
    ghost use Rattle.codes.specs.Values.{severity_at, severity_number};

    ghost LIST = { severity };

    ghost value_at = { severity_at };

    ghost number_of = { severity_number };

    ghost listed = { unfold lists in unfold is_number in Prim.search rules };

    ghost back = { Prim.search rules };

    const LIST: usize = list::SEVERITY;

    fn from_number(k: usize) -> Severity {
        match k {
            1 => Severity::Extreme,
            2 => Severity::Severe,
            3 => Severity::Moderate,
            4 => Severity::Minor,
            _ => Severity::Unknown,
        }
    }

    fn number(self) -> usize {
        match self {
            Severity::Extreme => 1,
            Severity::Severe => 2,
            Severity::Moderate => 3,
            Severity::Minor => 4,
            Severity::Unknown => 5,
        }
    }
}

impl Code for Certainty {
    ghost use Rattle.codes.specs.Values.{certainty_at, certainty_number};

    ghost LIST = { certainty };

    ghost value_at = { certainty_at };

    ghost number_of = { certainty_number };

    ghost listed = { unfold lists in unfold is_number in Prim.search rules };

    ghost back = { Prim.search rules };

    const LIST: usize = list::CERTAINTY;

    fn from_number(k: usize) -> Certainty {
        match k {
            1 => Certainty::Observed,
            2 => Certainty::Likely,
            3 => Certainty::Possible,
            4 => Certainty::Unlikely,
            _ => Certainty::Unknown,
        }
    }

    fn number(self) -> usize {
        match self {
            Certainty::Observed => 1,
            Certainty::Likely => 2,
            Certainty::Possible => 3,
            Certainty::Unlikely => 4,
            Certainty::Unknown => 5,
        }
    }
}
