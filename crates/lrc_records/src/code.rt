ghost use Rattle.std.specs.Prelude.{◌≡◌, ◌≢◌, None, IfSome};
ghost use Rattle.lrc_code.specs.declared.codes.Code.{Code as AnyCode};
ghost use Rattle.lrc_records.specs.Shown.{encoded_code};

use lrc_code::Code;

/// The number of a code: 1 is wide, 2 narrow.
pub fn code_number(code: Code) -> u8
    ensures { result ≡ encoded_code code }
{
    match code {
        Code::Wide => 1,
        Code::Narrow => 2,
    }
}

/// The code of a number, or `None` if no code has it.
pub fn code_of(number: u8) -> Option<Code>
    ensures some { IfSome result (λ code. encoded_code code ≡ number) }
    ensures none { (result ≡ None) → (code : AnyCode) → encoded_code code ≢ number }
{
    match number {
        1 => Some(Code::Wide),
        2 => Some(Code::Narrow),
        _ => None,
    }
}
