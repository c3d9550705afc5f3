//! Nodes and domains that are named on the command line.

use crate::stop::Stop;
use lrc_code::{FaultNo, NodeNo, UpgradeNo};
use lrc_tool::Named;
use std::alloc::Global;

/// What a number on the command line is of.
#[derive(Clone, Copy)]
pub(crate) enum Kind {
    Node,
    Fault,
    Upgrade,
}

/// Reads the numbers of nodes, and behind each word `fault` or `upgrade` the numbers of domains, one at least.
pub(crate) fn parse_named(alloc: Global, words: &[&str]) -> Result<Vec<Named>, Stop> {
    let mut named = Vec::new(alloc);
    let mut kind = Kind::Node;
    let mut wants_number = false;
    for word in words {
        match keyword(word) {
            Some(_) if wants_number => return Err(Stop::Usage),
            Some(next) => {
                kind = next;
                wants_number = true;
            }
            None => {
                named.push(parse_one(kind, word)?)?;
                wants_number = false;
            }
        }
    }
    if wants_number {
        return Err(Stop::Usage);
    }
    Ok(named)
}

/// What the numbers behind the word are of.
pub(crate) fn keyword(word: &str) -> Option<Kind> {
    match word {
        "fault" => Some(Kind::Fault),
        "upgrade" => Some(Kind::Upgrade),
        _ => None,
    }
}

fn parse_one(kind: Kind, word: &str) -> Result<Named, Stop> {
    let number = parse_number(word).ok_or(Stop::Usage)?;
    match kind {
        Kind::Node => Ok(Named::Node(NodeNo { value: number })),
        Kind::Fault => Ok(Named::Fault(FaultNo {
            value: domain(number)?,
        })),
        Kind::Upgrade => Ok(Named::Upgrade(UpgradeNo {
            value: domain(number)?,
        })),
    }
}

/// Whether a node, or a domain, can have the number.
pub(crate) fn in_range(kind: Kind, number: u16) -> bool {
    match kind {
        Kind::Node => true,
        Kind::Fault | Kind::Upgrade => domain(number).is_ok(),
    }
}

/// The number of a domain, from 0 to 255.
fn domain(number: u16) -> Result<u8, Stop> {
    u8::try_from(number).map_err(|_| Stop::Usage)
}

/// Reads a number from 0 to 65,535, without sign and without leading zeros.
pub(crate) fn parse_number(word: &str) -> Option<u16> {
    if word.starts_with('+') || (word.starts_with('0') && word != "0") {
        return None;
    }
    word.parse::<u16>().ok()
}
