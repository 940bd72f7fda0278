// How a call of `run` ends.
ghost use Rattle.std.specs.Prelude.{◌≡◌};
ghost use Rattle.kasa_top.specs.Status.{code_of, HasFixedText, status_text};
ghost use Rattle.kasa_top.specs.Due.{model_status, gather_status, solve_status};
ghost use Rattle.kasa_top.specs.declared.status.Status.TheVariants.{NoMemory as no_room};

use kasa_choose::GatherFault;
use kasa_compile::ModelFault;
use kasa_fixpoint::SolveFault;
use kasa_num::NoMemory;

/// How a call of `run` ended, and with it which text was due.
#[derive(Debug, Drop, PartialEq, Eq)]
pub enum Status {
    /// The report was due, and all of it was taken.
    Done,
    /// The words aren't those of a command.
    BadWords,
    /// The model's text has no model.
    BadModel(ModelFault),
    /// The model's text has more than 4 MiB.
    TooLong,
    /// The least closed tables have more than 200,000 rows.
    TooManyRows,
    /// More than 8,000 families are planned.
    TooManyFamilies,
    /// The model's text couldn't be fetched.
    ReadFault,
    /// The text due couldn't be written whole.
    WriteFault,
    /// There was no memory. Nothing was written.
    NoMemory,
}

impl Status {
    /// The number with which the program ends. It takes no memory.
    pub fn code(&self) -> u8
        ensures { result ≡ code_of self.now }
    {
        match self {
            Status::Done => 0,
            Status::BadWords => 2,
            Status::BadModel(_) => 3,
            Status::TooLong => 6,
            Status::TooManyRows => 7,
            Status::TooManyFamilies => 8,
            Status::ReadFault => 9,
            Status::WriteFault => 11,
            Status::NoMemory => 12,
        }
    }

    /// The text that is due where there is neither a report nor a model's fault, empty where none is. It takes no memory.
    pub(crate) fn fixed_text(&self) -> &'static [u8]
        requires { HasFixedText self.now }
        ensures { result.now ≡ status_text self.now }
    {
        match self {
            Status::BadWords => b"words not understood\n",
            Status::TooLong => b"too long\n",
            Status::TooManyRows => b"too many rows\n",
            Status::TooManyFamilies => b"too many families\n",
            Status::ReadFault => b"read fault\n",
            Status::Done | Status::WriteFault | Status::NoMemory => b"",
            Status::BadModel(_) => unreachable!(),
        }
    }
}

impl From<NoMemory> for Status {
    ghost from_gives = { λ _ e. e ≡ no_room };

    fn from(_: NoMemory) -> Status {
        Status::NoMemory
    }
}

impl From<ModelFault> for Status {
    ghost from_gives = { λ fault status. status ≡ model_status fault };

    fn from(fault: ModelFault) -> Status {
        match fault {
            ModelFault::NoMemory => Status::NoMemory,
            fault => Status::BadModel(fault),
        }
    }
}

impl From<GatherFault> for Status {
    ghost from_gives = { λ fault status. status ≡ gather_status fault };

    fn from(fault: GatherFault) -> Status {
        match fault {
            GatherFault::TooMany => Status::TooManyFamilies,
            GatherFault::NoMemory => Status::NoMemory,
        }
    }
}

impl From<SolveFault> for Status {
    ghost from_gives = { λ fault status. status ≡ solve_status fault };

    fn from(fault: SolveFault) -> Status {
        match fault {
            SolveFault::TooManyRows => Status::TooManyRows,
            SolveFault::NoMemory => Status::NoMemory,
        }
    }
}
