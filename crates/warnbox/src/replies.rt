// Answers as numbers: what the functions for C give back.
ghost use Rattle.std.specs.Prelude.{◌≡◌, Err};
ghost use Rattle.refusals.specs.Names.{name_answer};
ghost use Rattle.sheet.specs.Answers.{write_answer, read_answer};
ghost use Rattle.packet.specs.Packet as packet;
ghost use Rattle.events.specs.Running.{list_answer};
ghost use Rattle.document.specs.Documents.{check_answer};
ghost use Rattle.parts.specs.Places as places;
ghost use Rattle.parts.specs.Sheets as sheets;
ghost use Rattle.warnbox.specs.Replies.{reply};
ghost use Rattle.warnbox.specs.Sheets.{drawn_answer};

use crate::Reply;
use packet::{Fault, PlaceFault};
use parts::{PlaceError, SheetError};
use refusals::NameError;
use sheet::{ReadError, WriteError};

// A refusal by its number and its offset. What another crate refuses becomes one by `?`.
#[derive(Clone, Copy, Debug, PartialEq, Eq)]
pub struct Refused {
    pub number: u8,
    pub offset: usize,
}

impl Refused {
    // A refusal whose offset is 0.
    pub fn whole(number: u8) -> Refused
        ensures { result ≡ record { number = number; offset = 0 } }
    {
        Refused { number, offset: 0 }
    }
}

impl From<document::Refusal> for Refused {
    ghost from_gives = { λ e refused. drawn_answer (Err refused) ≡ check_answer (Err e) };

    fn from(refusal: document::Refusal) -> Refused {
        Refused {
            number: u8::from(refusal.fault),
            offset: refusal.offset,
        }
    }
}

impl From<SheetError> for Refused {
    ghost from_gives = { λ e refused. drawn_answer (Err refused) ≡ sheets.sheet_answer (Err e) };

    fn from(error: SheetError) -> Refused {
        match error {
            SheetError::NotThere => Refused::whole(21),
            SheetError::OutOfRange => Refused::whole(7),
            SheetError::Document(refusal) => Refused::from(refusal),
        }
    }
}

impl From<PlaceError> for Refused {
    ghost from_gives = { λ e refused. drawn_answer (Err refused) ≡ places.place_answer (Err e) };

    fn from(error: PlaceError) -> Refused {
        match error {
            PlaceError::NotThere => Refused::whole(21),
            PlaceError::OutOfRange => Refused::whole(6),
            PlaceError::Document(refusal) => Refused::from(refusal),
        }
    }
}

impl From<Fault> for Refused {
    ghost from_gives = { λ e refused. drawn_answer (Err refused) ≡ packet.sheet_answer (Err e) };

    fn from(fault: Fault) -> Refused {
        Refused::whole(u8::from(fault))
    }
}

impl From<PlaceFault> for Refused {
    ghost from_gives = { λ e refused. drawn_answer (Err refused) ≡ packet.place_answer (Err e) };

    fn from(fault: PlaceFault) -> Refused {
        match fault {
            PlaceFault::OutOfRange => Refused::whole(6),
            PlaceFault::Packet(fault) => Refused::from(fault),
        }
    }
}

impl From<WriteError> for Refused {
    ghost from_gives = { λ e refused. drawn_answer (Err refused) ≡ write_answer (Err e) };

    fn from(error: WriteError) -> Refused {
        match error {
            WriteError::OutOfRange => Refused::whole(23),
            WriteError::NoRoom => Refused::whole(13),
        }
    }
}

impl From<ReadError> for Refused {
    ghost from_gives = { λ e refused. drawn_answer (Err refused) ≡ read_answer (Err e) };

    fn from(error: ReadError) -> Refused {
        match error {
            ReadError::NotReadBack(offset) => Refused { number: 23, offset },
            ReadError::NotThere => Refused::whole(21),
        }
    }
}

impl From<NameError> for Refused {
    ghost from_gives = { λ e refused. drawn_answer (Err refused) ≡ name_answer (Err e) };

    fn from(error: NameError) -> Refused {
        match error {
            NameError::NotThere => Refused::whole(21),
            NameError::NoRoom => Refused::whole(13),
        }
    }
}

impl From<events::NoRoom> for Refused {
    ghost from_gives = { λ e refused. drawn_answer (Err refused) ≡ list_answer (Err e) };

    fn from(_error: events::NoRoom) -> Refused {
        Refused::whole(24)
    }
}

impl From<Result<usize, Refused>> for Reply {
    ghost from_gives = { λ answer given. given ≡ reply (drawn_answer answer) };

    fn from(answer: Result<usize, Refused>) -> Reply {
        match answer {
            Ok(value) => Reply { number: 0, value },
            Err(refused) => Reply {
                number: refused.number,
                value: refused.offset,
            },
        }
    }
}

// Tells C an answer: the number is the result, the value goes where C wants it.
pub fn tell(answer: Result<usize, Refused>, value: &mut usize) -> u8
    ensures { (result ≡ (reply (drawn_answer answer)).number) × (value.new ≡ (reply (drawn_answer answer)).value) }
{
    let reply = Reply::from(answer);
    *value = reply.value;
    reply.number
}
