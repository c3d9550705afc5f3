//! The tables that are named on the command line.

use crate::stop::Stop;
use lrc_tool::{DomainKind, View};

/// Reads the word for a table, and behind `domains` the word for their kind.
pub(crate) fn parse_view(words: &[&str]) -> Result<View, Stop> {
    if words.len() == 2 && words[0] == "domains" {
        return Ok(View::Domains(parse_kind(words[1])?));
    }
    if words.len() != 1 {
        return Err(Stop::Usage);
    }
    match words[0] {
        "status" => Ok(View::Status),
        "stripes" => Ok(View::Stripes),
        "nodes" => Ok(View::Nodes),
        "leases" => Ok(View::Leases),
        "work" => Ok(View::Work),
        "fragments" => Ok(View::Fragments),
        "health" => Ok(View::Health),
        "capacity" => Ok(View::Capacity),
        _ => Err(Stop::Usage),
    }
}

fn parse_kind(word: &str) -> Result<DomainKind, Stop> {
    match word {
        "fault" => Ok(DomainKind::Fault),
        "upgrade" => Ok(DomainKind::Upgrade),
        _ => Err(Stop::Usage),
    }
}
