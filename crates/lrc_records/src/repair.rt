ghost use Rattle.std.specs.Prelude.{◌≡◌, ◌≢◌, ◌-◌, ◌≤◌, List, ◌++◌, length, map, take, replicate, None, IfSome, IsSomeAnd};
ghost use Rattle.lrc_code.specs.declared.numbers.Fragment.{Fragment as AnyFragment};
ghost use Rattle.lrc_rules.specs.declared.kind.Kind.{Kind as AnyKind};
ghost use Rattle.lrc_records.specs.Replies.{encoded_repair, repair_plan};

use lrc_code::Fragment;
use lrc_rules::Kind;

/// How a fragment is rebuilt: the number of the kind of repair, and the fragments that it reads, and 0 after them. 1 reads
/// the six others of its group, 4 the three others of a narrow stripe's group; 2 reads the whole stripe, and 3 its own home.
#[repr(C)]
#[derive(Clone, Copy)]
pub struct LrcRepairPlan {
    pub repair: u8,
    pub sources: [u8; 6],
    pub reserved: u8,
}

impl LrcRepairPlan {
    /// The record of a kind of repair.
    pub fn of(kind: &Kind) -> LrcRepairPlan
        ensures { result ≡ repair_plan kind.now }
    {
        let (repair, sources) = repair_of(kind);
        LrcRepairPlan {
            repair,
            sources,
            reserved: 0,
        }
    }
}

/// The number of a kind of repair, and the fragments that it reads, and 0 after them.
pub(crate) fn repair_of(kind: &Kind) -> (u8, [u8; 6])
    ensures { result ≡ encoded_repair kind.now }
{
    match kind {
        Kind::Local(sources) => (1, numbers_of(sources)),
        Kind::Global => (2, [0; 6]),
        Kind::Move => (3, [0; 6]),
        Kind::Local3(sources) => (4, numbers_of(sources)),
    }
}

/// The numbers of the fragments, and 0 after them.
fn numbers_of(fragments: &[Fragment]) -> [u8; 6]
    requires few { length fragments.now ≤ 6 }
    ensures { result ≡ map (λ f. f.value) fragments.now ++ replicate (6 - length fragments.now) 0 }
{
    let mut numbers = [0; 6];
    for (i, fragment) in fragments.iter().enumerate() {
        numbers[i] = fragment.value;
    }
    numbers
}

/// The kind of repair that has this number and these sources, with 0 after them.
pub(crate) fn read_repair(repair: u8, sources: &[u8; 6]) -> Option<Kind>
    ensures { (kind : AnyKind) → encoded_repair kind ≡ (repair, sources.now) →
        IsSomeAnd result (λ read. encoded_repair read ≡ (repair, sources.now)) }
{
    match repair {
        1 => Some(Kind::Local(read_fragments(sources)?)),
        2 => Some(Kind::Global),
        3 => Some(Kind::Move),
        4 => Some(Kind::Local3(read_fragments(sources)?)),
        _ => None,
    }
}

/// The fragments that have the first of these numbers; `None` if one of them is out of range.
fn read_fragments<const N: usize>(numbers: &[u8; 6]) -> Option<[Fragment; N]>
    requires few { N ≤ 6 }
    ensures some { IfSome result (λ fragments. map (λ f. f.value) fragments ≡ take N numbers.now) }
    ensures none { (result ≡ None) → (fragments : List AnyFragment) → map (λ f. f.value) fragments ≢ take N numbers.now }
{
    let mut fragments = [Fragment { value: 0 }; N];
    for i in 0..N {
        fragments[i] = Fragment::new(numbers[i])?;
    }
    Some(fragments)
}
