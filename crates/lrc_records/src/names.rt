//! The words for the numbers of statuses, commands, replies and refusals, and the fields of commands.

ghost use Rattle.std.specs.Prelude.{◌≡◌, option_map};
ghost use Rattle.lrc_records.specs.Words.{status_name, reply_name, refusal_name, command_name, command_fields};

// The numbers of the fields of commands.
const STRIPE: u8 = 1;

const FRAGMENT: u8 = 2;

const EPOCH: u8 = 3;

const NODE: u8 = 4;

const DOMAIN: u8 = 5;

/// The word for a status of the library; `None` if no status has this number.
pub fn status_name(status: u32) -> Option<&'static str>
    ensures { option_map (λ word. word.now) result ≡ status_name status }
{
    match status {
        0 => Some("done"),
        1 => Some("closed handle"),
        2 => Some("open handle"),
        3 => Some("out of range"),
        4 => Some("unknown"),
        5 => Some("full"),
        6 => Some("out of memory"),
        7 => Some("short buffer"),
        8 => Some("different reply"),
        9 => Some("moved"),
        10 => Some("forgotten"),
        11 => Some("not determined"),
        12 => Some("miscounted buffers"),
        13 => Some("uneven buffers"),
        16 => Some("not TOML"),
        17 => Some("no nodes"),
        18 => Some("bad field"),
        19 => Some("node out of range"),
        20 => Some("double node"),
        21 => Some("too many nodes"),
        22 => Some("bad line"),
        23 => Some("invalid image"),
        _ => None,
    }
}

/// The word for a kind of reply; `None` if no kind has this number.
pub fn reply_name(kind: u8) -> Option<&'static str>
    ensures { option_map (λ word. word.now) result ≡ reply_name kind }
{
    match kind {
        1 => Some("placed"),
        2 => Some("dropped"),
        3 => Some("granted"),
        4 => Some("idle"),
        5 => Some("ended"),
        6 => Some("changed"),
        7 => Some("refused"),
        8 => Some("ticked"),
        9 => Some("placed"),
        _ => None,
    }
}

/// The word for a refusal; `None` if no refusal has this number.
pub fn refusal_name(refusal: u8) -> Option<&'static str>
    ensures { option_map (λ word. word.now) result ≡ refusal_name refusal }
{
    match refusal {
        101 => Some("unknown stripe"),
        102 => Some("stripe exists"),
        103 => Some("no lawful node"),
        104 => Some("unknown node"),
        105 => Some("wrong mode"),
        106 => Some("unknown domain"),
        107 => Some("upgrade running"),
        108 => Some("not upgrading"),
        109 => Some("would lose"),
        110 => Some("already leased"),
        111 => Some("not needed"),
        112 => Some("unrecoverable"),
        113 => Some("stale"),
        114 => Some("not holder"),
        115 => Some("target offline"),
        116 => Some("no lease"),
        117 => Some("not empty"),
        _ => None,
    }
}

/// The word for a kind of command, with which its line begins; `None` if no kind has this number.
pub fn command_name(kind: u8) -> Option<&'static str>
    ensures { option_map (λ word. word.now) result ≡ command_name kind }
{
    match kind {
        1 => Some("place"),
        2 => Some("drop"),
        3 => Some("lease"),
        4 => Some("next"),
        5 => Some("done"),
        6 => Some("abandon"),
        7 => Some("revoke"),
        8 => Some("fail"),
        9 => Some("down"),
        10 => Some("up"),
        11 => Some("drain"),
        12 => Some("undrain"),
        13 => Some("retire"),
        14 => Some("join"),
        15 => Some("upgrade"),
        16 => Some("upgraded"),
        17 => Some("tick"),
        18 => Some("place6"),
        _ => None,
    }
}

/// The fields that commands of a kind use, in the order of their lines: 1 is the stripe, 2 the fragment, 3 the epoch, 4 the
/// node, and 5 the upgrade domain. `None` if no kind has this number.
pub fn command_fields(kind: u8) -> Option<&'static [u8]>
    ensures { option_map (λ fields. fields.now) result ≡ command_fields kind }
{
    match kind {
        1 => Some(&[STRIPE]),
        2 => Some(&[STRIPE]),
        3 => Some(&[STRIPE, FRAGMENT]),
        4 => Some(&[]),
        5 => Some(&[STRIPE, FRAGMENT, EPOCH]),
        6 => Some(&[STRIPE, FRAGMENT, EPOCH]),
        7 => Some(&[STRIPE, FRAGMENT]),
        8 => Some(&[NODE]),
        9 => Some(&[NODE]),
        10 => Some(&[NODE]),
        11 => Some(&[NODE]),
        12 => Some(&[NODE]),
        13 => Some(&[NODE]),
        14 => Some(&[NODE]),
        15 => Some(&[DOMAIN]),
        16 => Some(&[DOMAIN]),
        17 => Some(&[]),
        18 => Some(&[STRIPE]),
        _ => None,
    }
}
