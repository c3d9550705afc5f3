ghost use Rattle.std.specs.Prelude.{◌≡◌, IfSome, is_some};
ghost use Rattle.lrc_records.specs.Commands.{IsCommand, is_command, encoded_command, of_stripe, of_fragment, of_node, of_domain};

use lrc_code::{Fragment, NodeNo, StripeNo, UpgradeNo};
use lrc_rules::Command;

/// A command. `read` has the kinds. A field that the kind does not use may be anything, and is 0 in a command that the
/// library writes.
#[repr(C)]
#[derive(Clone, Copy)]
pub struct LrcCommand {
    pub kind: u8,
    pub fragment: u8,
    pub domain: u8,
    pub reserved: [u8; 5],
    pub epoch: u32,
    pub stripe: u16,
    pub node: u16,
}

const BLANK: LrcCommand = LrcCommand {
    kind: 0,
    fragment: 0,
    domain: 0,
    reserved: [0; 5],
    epoch: 0,
    stripe: 0,
    node: 0,
};

impl LrcCommand {
    /// The command; `None` if the kind is not one of 1 to 18, if it names a stripe above 4095, or a fragment above 15.
    #[inline(always)] // a call from C then goes through one struct in memory less
    pub fn read(&self) -> Option<Command>
        ensures value { IfSome result (IsCommand self.now) }
        ensures valid { is_some result ≡ is_command self.now }
    {
        match self.kind {
            1 => Some(Command::Place(StripeNo::new(self.stripe)?)),
            2 => Some(Command::Drop(StripeNo::new(self.stripe)?)),
            3 => Some(Command::Lease(StripeNo::new(self.stripe)?, Fragment::new(self.fragment)?)),
            4 => Some(Command::Next),
            5 => Some(Command::Done(
                StripeNo::new(self.stripe)?,
                Fragment::new(self.fragment)?,
                self.epoch,
            )),
            6 => Some(Command::Abandon(
                StripeNo::new(self.stripe)?,
                Fragment::new(self.fragment)?,
                self.epoch,
            )),
            7 => Some(Command::Revoke(StripeNo::new(self.stripe)?, Fragment::new(self.fragment)?)),
            8 => Some(Command::Fail(NodeNo { value: self.node })),
            9 => Some(Command::Down(NodeNo { value: self.node })),
            10 => Some(Command::Up(NodeNo { value: self.node })),
            11 => Some(Command::Drain(NodeNo { value: self.node })),
            12 => Some(Command::Undrain(NodeNo { value: self.node })),
            13 => Some(Command::Retire(NodeNo { value: self.node })),
            14 => Some(Command::Join(NodeNo { value: self.node })),
            15 => Some(Command::Upgrade(UpgradeNo { value: self.domain })),
            16 => Some(Command::Upgraded(UpgradeNo { value: self.domain })),
            17 => Some(Command::Tick),
            18 => Some(Command::Place6(StripeNo::new(self.stripe)?)),
            _ => None,
        }
    }

    /// The record of a command.
    pub fn of(command: Command) -> LrcCommand
        ensures { result ≡ encoded_command command }
    {
        match command {
            Command::Place(stripe) => of_stripe(1, stripe),
            Command::Drop(stripe) => of_stripe(2, stripe),
            Command::Lease(stripe, fragment) => of_fragment(3, stripe, fragment, 0),
            Command::Next => LrcCommand { kind: 4, ..BLANK },
            Command::Done(stripe, fragment, epoch) => of_fragment(5, stripe, fragment, epoch),
            Command::Abandon(stripe, fragment, epoch) => of_fragment(6, stripe, fragment, epoch),
            Command::Revoke(stripe, fragment) => of_fragment(7, stripe, fragment, 0),
            Command::Fail(node) => of_node(8, node),
            Command::Down(node) => of_node(9, node),
            Command::Up(node) => of_node(10, node),
            Command::Drain(node) => of_node(11, node),
            Command::Undrain(node) => of_node(12, node),
            Command::Retire(node) => of_node(13, node),
            Command::Join(node) => of_node(14, node),
            Command::Upgrade(domain) => of_domain(15, domain),
            Command::Upgraded(domain) => of_domain(16, domain),
            Command::Tick => LrcCommand { kind: 17, ..BLANK },
            Command::Place6(stripe) => of_stripe(18, stripe),
        }
    }
}

fn of_stripe(kind: u8, stripe: StripeNo) -> LrcCommand
    ensures { result ≡ of_stripe kind stripe }
{
    LrcCommand {
        kind,
        stripe: stripe.value,
        ..BLANK
    }
}

fn of_fragment(kind: u8, stripe: StripeNo, fragment: Fragment, epoch: u32) -> LrcCommand
    ensures { result ≡ of_fragment kind stripe fragment epoch }
{
    LrcCommand {
        kind,
        stripe: stripe.value,
        fragment: fragment.value,
        epoch,
        ..BLANK
    }
}

fn of_node(kind: u8, node: NodeNo) -> LrcCommand
    ensures { result ≡ of_node kind node }
{
    LrcCommand {
        kind,
        node: node.value,
        ..BLANK
    }
}

fn of_domain(kind: u8, domain: UpgradeNo) -> LrcCommand
    ensures { result ≡ of_domain kind domain }
{
    LrcCommand {
        kind,
        domain: domain.value,
        ..BLANK
    }
}
