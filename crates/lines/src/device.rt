// The devices on the controller.
ghost use Rattle.std.specs.Prelude.{◌≡◌};
ghost use Rattle.lines.specs.Devices as devices;

#[derive(Clone, Copy, Debug, PartialEq, Eq)]
pub enum Device {
    Keyboard,
    Mouse,
}

impl Device {
    // As the state names the device that a byte is being sent to; 0 there is none.
    pub fn number(self) -> u8
        ensures { result ≡ devices.number self }
    {
        match self {
            Device::Keyboard => 1,
            Device::Mouse => 2,
        }
    }

    // The bit of the mode byte that is 1 while it is off.
    pub(crate) fn off_bit(self) -> u8
        ensures { result ≡ devices.off_bit self }
    {
        match self {
            Device::Keyboard => 0x10,
            Device::Mouse => 0x20,
        }
    }
}
