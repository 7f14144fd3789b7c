// The status where the frames of a journal are not read.
use crate::status::Status;
use world_journal::RecoverFault;

impl From<RecoverFault> for Status {
    ghost use Rattle.std.specs.Prelude.{◌≡◌};
    ghost use Rattle.run_status.specs.Unread.{status_unread};

    ghost from_gives = { λ fault status. status ≡ status_unread fault };

    fn from(fault: RecoverFault) -> Self {
        match fault {
            RecoverFault::Empty => Status::NoJournal,
            RecoverFault::DiskFault => Status::DiskFault,
            RecoverFault::NotAJournal(place) => Status::NotAJournal(place),
            RecoverFault::Memory => Status::Memory,
        }
    }
}
