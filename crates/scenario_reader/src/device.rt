//! Lines of the section `devices`.

ghost use Rattle.std.specs.Prelude.{◌≡◌};
ghost use Rattle.std.specs.List.{list_any};
ghost use Rattle.scenario_reader.specs.Devices.{number_of, number_behind, device_of, is_clash, fails, is_every};

use crate::mark::has_front;

/// What the devices of a run do. Calls count from 0.
#[derive(Clone, Copy, Debug, PartialEq, Eq)]
pub enum Device {
    /// `fail N`: the desk's call of that number fails.
    Fail(u64),
    /// `fail-out N`: standard output's call of that number fails.
    FailOut(u64),
    /// `fail-err N`: standard error's call of that number fails.
    FailErr(u64),
    /// `pieces N`: a reading gives so many bytes at most, and at least one.
    Pieces(u64),
    /// `every call`: the run is repeated with each call failing in turn.
    EveryCall,
}

/// The number that digits write, at least one and at most nine of them.
#[tactic(auto, using(crate::proofs::Steps::number_at))]
fn number_of(digits: &[u8]) -> Option<u64>
    ensures { result ≡ number_of digits.now }
{
    if digits.is_empty() {
        return None;
    }
    let mut value: u64 = 0;
    for b in digits {
        if !b.is_ascii_digit() || value >= 100_000_000 {
            return None;
        }
        value = value * 10 + u64::from(*b - b'0');
    }
    Some(value)
}

/// The number behind a front.
fn number_behind(front: &[u8], line: &[u8]) -> Option<u64>
    ensures { result ≡ number_behind front.now line.now }
{
    if !has_front(front, line) {
        return None;
    }
    number_of(&line[front.len()..])
}

/// The device that a line names.
#[tactic(auto, unfolding(crate::specs::Devices::device_of))]
pub(crate) fn device_of(line: &[u8]) -> Option<Device>
    ensures { result ≡ device_of line.now }
{
    if line == b"every call".as_slice() {
        return Some(Device::EveryCall);
    }
    if let Some(call) = number_behind(b"fail ", line) {
        return Some(Device::Fail(call));
    }
    if let Some(call) = number_behind(b"fail-out ", line) {
        return Some(Device::FailOut(call));
    }
    if let Some(call) = number_behind(b"fail-err ", line) {
        return Some(Device::FailErr(call));
    }
    match number_behind(b"pieces ", line) {
        Some(bytes) if bytes > 0 => Some(Device::Pieces(bytes)),
        _ => None,
    }
}

fn fails(device: Device) -> bool
    ensures { result ≡ fails device }
{
    matches!(
        device,
        Device::Fail(_) | Device::FailOut(_) | Device::FailErr(_)
    )
}

fn is_every(device: Device) -> bool
    ensures { result ≡ is_every device }
{
    matches!(device, Device::EveryCall)
}

fn has_every(devices: &[Device]) -> bool
    ensures { result ≡ list_any is_every devices.now }
{
    devices.iter().any(|device| is_every(*device))
}

fn has_failing(devices: &[Device]) -> bool
    ensures { result ≡ list_any fails devices.now }
{
    devices.iter().any(|device| fails(*device))
}

/// Whether every call is to fail in turn, and some call beside.
pub(crate) fn is_clash(devices: &[Device]) -> bool
    ensures { result ≡ is_clash devices.now }
{
    has_every(devices) && has_failing(devices)
}
