//! Lines of a text that sets registers.
ghost use Rattle.std.specs.Prelude.{◌≡◌, ◌≤◌, ◌==◌, IfSome, None, Some, option_map};
ghost use Rattle.std.specs.Option.{option_and_then};
ghost use Rattle.rv_model.specs.commands.Arguments.{address, instruction_address, scalar_register, vector_register};
ghost use Rattle.rv_model.specs.vector.RoundingModes.{rounding_mode};
ghost use Rattle.first_state.specs.declared.setting.Setting.TheVariants.{Counter, Length, Rounding, Saturation, Start};
ghost use Rattle.first_state.specs.Lines.{
  kind_numbered,
  line_setting,
  named_setting,
  number_up_to,
  scalar_setting,
  setting_of,
  vector_setting,
};

use crate::setting::Setting;
use line_text::{Arguments, address, instruction_address, scalar_register, vector_register};
use rv_model::{Reg, RegisterBytes, RoundingMode, VReg};
use vtype_rules::{vector_type, vtype_number};

/// Maximum vector length, in elements.
const MAX_LENGTH: u64 = 256;

/// Return the number of 1 to 16 hexadecimal digits, if it is at most `most`.
fn number_up_to(most: u64, word: &[u8]) -> Option<u64>
    ensures value { result ≡ number_up_to most word.now }
    ensures bound { IfSome result (λ n. n ≤ most) }
{
    let number = address(word)?;
    if number <= most { Some(number) } else { None }
}

/// `pc HEX`
fn counter(value: &[u8]) -> Option<Setting>
    ensures { result ≡ option_map Counter (instruction_address value.now) }
{
    let addr = instruction_address(value)?;
    Some(Setting::Counter(addr))
}

/// `vl HEX`
fn length(value: &[u8]) -> Option<Setting>
    ensures { result ≡ option_map Length (number_up_to 256 value.now) }
{
    let number = number_up_to(MAX_LENGTH, value)?;
    Some(Setting::Length(number as u16))
}

/// `vtype HEX`
fn kind(value: &[u8]) -> Option<Setting>
    ensures { result ≡ option_and_then kind_numbered (address value.now) }
{
    let number = address(value)?;
    if number == vtype_number(None) {
        return Some(Setting::Kind(None));
    }
    let vtype = vector_type(number)?;
    Some(Setting::Kind(Some(vtype)))
}

/// `vstart HEX`
fn start(value: &[u8]) -> Option<Setting>
    ensures { result ≡ option_map Start (number_up_to 255 value.now) }
{
    let number = number_up_to(255, value)?;
    Some(Setting::Start(number as u8))
}

/// `vxrm HEX`
fn rounding(value: &[u8]) -> Option<Setting>
    ensures { result ≡ option_map (λ n. Rounding (rounding_mode n)) (number_up_to 3 value.now) }
{
    let number = number_up_to(3, value)?;
    Some(Setting::Rounding(RoundingMode::with_number(number)))
}

/// `vxsat HEX`
fn saturation(value: &[u8]) -> Option<Setting>
    ensures { result ≡ option_map (λ n. Saturation (n == 1)) (number_up_to 1 value.now) }
{
    let number = number_up_to(1, value)?;
    Some(Setting::Saturation(number == 1))
}

/// Return the setting of a register other than `xN` and `vN`. `None` means another name, and `Some(None)` a value that the register can't
/// hold.
fn named_setting(name: &[u8], value: &[u8]) -> Option<Option<Setting>>
    ensures { result ≡ named_setting name.now value.now }
{
    if name == b"pc".as_slice() {
        return Some(counter(value));
    }
    if name == b"vl".as_slice() {
        return Some(length(value));
    }
    if name == b"vtype".as_slice() {
        return Some(kind(value));
    }
    if name == b"vstart".as_slice() {
        return Some(start(value));
    }
    if name == b"vxrm".as_slice() {
        return Some(rounding(value));
    }
    if name == b"vxsat".as_slice() {
        return Some(saturation(value));
    }
    None
}

/// `xN HEX`
fn scalar_setting(name: &[u8], value: &[u8]) -> Option<Setting>
    ensures { result ≡ scalar_setting value.now (scalar_register name.now) }
{
    let register = scalar_register(name)?;
    let value = address(value)?;
    Some(Setting::Scalar { register, value })
}

/// `vN HEX`, with 64 digits, byte 0 first.
fn vector_setting(name: &[u8], value: &[u8]) -> Option<Setting>
    ensures { result ≡ vector_setting value.now (vector_register name.now) }
{
    let register = vector_register(name)?;
    let bytes = RegisterBytes::from_hex(value)?;
    Some(Setting::Vector { register, bytes })
}

/// Return the setting of a register, from its name and value.
fn setting_of(name: &[u8], value: &[u8]) -> Option<Setting>
    ensures { result ≡ setting_of name.now value.now }
{
    if let Some(setting) = named_setting(name, value) {
        return setting;
    }
    if let Some(setting) = scalar_setting(name, value) {
        return Some(setting);
    }
    vector_setting(name, value)
}

/// Return the setting of a line. `Some(None)` means an empty line. `None` means a line that isn't a register name and a value that the
/// register can hold.
#[tactic(auto, unfolding(crate::specs::Lines::line_setting))]
pub(crate) fn line_setting(line: &[u8]) -> Option<Option<Setting>>
    ensures { result ≡ line_setting line.now }
{
    let mut words = Arguments::new(line);
    let Some(name) = words.next_argument() else {
        return Some(None);
    };
    let value = words.next_argument()?;
    if words.next_argument().is_some() {
        return None;
    }
    let setting = setting_of(name, value)?;
    Some(Some(setting))
}
