//! The message that is being sent, under flow control (ISO 15765-2:2016, 9.6.5 and 9.8).

ghost use Rattle.std.specs.Prelude.{
  ◌≡◌,
  ◌<◌,
  ◌≤◌,
  ◌-◌,
  Some,
  None,
  if◌then◌else◌,
};
ghost use Rattle.diag_sides.specs.Quiet.{phase_quiet, phase_later};
ghost use Rattle.diag_sides.specs.Flow.{gap_ticks, flow_decision, block_size};
ghost use Rattle.diag_pdu.specs.declared.length.DataLength.{DataLength as ADataLength};
ghost use Rattle.diag_pdu.specs.Cut.{frames_of};
ghost use Rattle.diag_sides.specs.Sender.{IsSound, within_block, flow_fields, tick_fields, block_fields, begun_sending, one_gone};

use diag_pdu::{DataLength, LinkSetup, Message, frames_of};

/// What the current message waits for.
#[derive(Clone, Copy)]
pub(crate) enum Phase {
    /// A FlowControl, for so many more ticks: then N_Bs is over.
    AwaitsFlow { ticks: u16 },
    /// The next Consecutive of a block of which `rest` are left, `gap` ticks apart, in so many ticks.
    InBlock { rest: u16, gap: u16, ticks: u16 },
}

impl Phase {
    /// The ticks that are left.
    pub(crate) fn ticks(&self) -> u16
        ensures { result ≡ phase_quiet self.now }
    {
        match self {
            Phase::AwaitsFlow { ticks } | Phase::InBlock { ticks, .. } => *ticks,
        }
    }

    /// So many ticks, of those that are left.
    #[inline(always)]
    pub(crate) fn pass_quietly(&mut self, count: u64)
        requires few { count ≤ phase_quiet self.old }
        ensures { self.new ≡ phase_later count self.old }
    {
        match self {
            Phase::AwaitsFlow { ticks } => *ticks = (u64::from(*ticks) - count) as u16,
            Phase::InBlock { ticks, .. } => *ticks = (u64::from(*ticks) - count) as u16,
        }
    }
}

/// The message that is being sent: its next frame, from 0, and how many are due now.
#[derive(Drop)]
pub(crate) struct Sending {
    pub(crate) message: Message,
    pub(crate) next: u16,
    pub(crate) due: u16,
    pub(crate) phase: Phase,
}

/// The ticks that a separation time (STmin) means: below a tick it is one, and a reserved value is the longest.
fn gap_ticks(st_min: u8) -> u16
    ensures { result ≡ gap_ticks st_min }
{
    match st_min {
        0..=127 => u16::from(st_min),
        241..=249 => 1,
        _ => 127,
    }
}

/// The wait for a FlowControl, which N_Bs ends.
fn awaits_flow(setup: &LinkSetup) -> Phase
    ensures { result ≡ Phase.AwaitsFlow setup.now.n_bs }
{
    Phase::AwaitsFlow {
        ticks: setup.n_bs.get(),
    }
}

/// The phase after a frame of a block of which so many are left.
fn within_block(setup: &LinkSetup, rest: u16, gap: u16) -> Phase
    ensures { result ≡ within_block setup.now rest gap }
{
    if rest == 0 {
        awaits_flow(setup)
    } else {
        Phase::InBlock {
            rest,
            gap,
            ticks: gap,
        }
    }
}

impl Sending {
    /// So many ticks pass; false where the waiting time is up, which ends the message.
    pub(crate) fn tick(&mut self, setup: &LinkSetup, count: u16) -> bool
        ensures fields { (if result then Some self.new else None)
            ≡ tick_fields setup.now count self.old self.old.phase }
        ensures sound { (d : ADataLength) → IsSound d self.old → IsSound d self.new }
    {
        match self.phase {
            Phase::AwaitsFlow { ticks } => {
                if ticks <= count {
                    return false;
                }
                self.phase = Phase::AwaitsFlow {
                    ticks: ticks - count,
                };
            }
            Phase::InBlock { rest, gap, ticks } => {
                if ticks <= count {
                    self.phase = within_block(setup, rest.saturating_sub(1), gap);
                    self.due = 1;
                } else {
                    self.phase = Phase::InBlock {
                        rest,
                        gap,
                        ticks: ticks - count,
                    };
                }
            }
        }
        true
    }

    /// A flow control frame comes; false where it ends the message.
    pub(crate) fn decide(
        &mut self,
        setup: &LinkSetup,
        flow_status: u8,
        block: u8,
        st_min: u8,
    ) -> bool
        requires sound { IsSound setup.now.framing.tx_dl self.old }
        ensures fields { (if result then Some self.new else None)
            ≡ flow_fields setup.now self.old (flow_decision flow_status block st_min) self.old.phase }
        ensures sound { IsSound setup.now.framing.tx_dl self.new }
    {
        if matches!(self.phase, Phase::InBlock { .. }) {
            return true;
        }
        match flow_status {
            0 => self.begin_block(setup, block, gap_ticks(st_min)),
            1 => self.phase = awaits_flow(setup),
            _ => return false,
        }
        true
    }

    /// A block begins.
    fn begin_block(&mut self, setup: &LinkSetup, block: u8, gap: u16)
        requires sound { IsSound setup.now.framing.tx_dl self.old }
        ensures fields { self.new ≡ block_fields setup.now self.old
            (block_size block (frames_of setup.now.framing.tx_dl self.old.message - self.old.next)) gap }
        ensures sound { IsSound setup.now.framing.tx_dl self.new }
    {
        let left = self.left(setup.framing.tx_dl);
        let size = if block == 0 {
            left
        } else {
            left.min(u16::from(block))
        };
        if gap == 0 {
            self.due = size;
            self.phase = awaits_flow(setup);
        } else {
            self.due = 1;
            self.phase = within_block(setup, size.saturating_sub(1), gap);
        }
    }

    /// How many frames of that length have not gone.
    #[inline(always)]
    pub(crate) fn left(&self, tx_dl: DataLength) -> u16
        requires sound { IsSound tx_dl self.now }
        ensures { result ≡ frames_of tx_dl self.now.message - self.now.next }
    {
        frames_of(tx_dl, &self.message) - self.next
    }

    /// A message that begins.
    pub(crate) fn begun(setup: &LinkSetup, message: Message) -> Sending
        ensures fields { result ≡ begun_sending setup.now message }
        ensures sound { (d : ADataLength) → IsSound d result }
    {
        Sending {
            message,
            next: 0,
            due: 1,
            phase: awaits_flow(setup),
        }
    }

    /// The next frame of that length goes; false where it is the last.
    pub(crate) fn go(&mut self, tx_dl: DataLength) -> bool
        requires sound { IsSound tx_dl self.old }
        requires some { 0 < self.old.due }
        ensures fields { (if result then Some self.new else None) ≡ one_gone tx_dl self.old }
        ensures sound { IsSound tx_dl self.new }
    {
        let len = self.message.bytes().len();
        prove!(len <= 65535);
        let next = self.next + 1;
        if self.due == 1 && next == frames_of(tx_dl, &self.message) {
            return false;
        }
        self.next = next;
        self.due -= 1;
        true
    }
}
