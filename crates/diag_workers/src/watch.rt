//! Who is told of each step.
use diag_desk::StepFault;
use diag_gate::Door;
use diag_pdu::{Message, Step};
use diag_setup::TesterId;

/// Is told of each step before its door is asked, while nothing is held.
pub trait Watch {
    /// This tester's door is asked for its next step now.
    fn called(&self, who: TesterId);
}

/// Takes no notice.
#[derive(Clone, Copy)]
pub struct NoWatch;

impl Watch for NoWatch {
    fn called(&self, _who: TesterId) {}
}

/// A door that tells a watch of each step, before it asks the door within.
#[derive(Drop)]
pub(crate) struct WatchedDoor<'w, D: Door, W: Watch> {
    pub(crate) door: D,
    pub(crate) watch: &'w W,
}

impl<'w, D: Door, W: Watch> Door for WatchedDoor<'w, D, W> {
    ghost tester = { λ d. D.tester d.door };

    ghost given = { λ d. D.given d.door };

    ghost delay = { λ d. D.delay d.door };

    ghost can_delay = { λ d. D.can_delay d.door };

    ghost home = { λ d. D.home d.door };

    fn who(&self) -> TesterId {
        self.door.who()
    }

    fn after_ms(&self) -> u32 {
        self.door.after_ms()
    }

    fn can_delay(&self) -> bool {
        self.door.can_delay()
    }

    fn step(&mut self, step: &Step) -> Result<Option<Message>, StepFault> {
        self.watch.called(self.door.who());
        self.door.step(step)
    }
}
