// The version of the interface.
ghost use Rattle.std.specs.Prelude.{◌≡◌};
ghost use Rattle.host.specs.Version.{version};

// 0xMMmmpp00: 0.2.0.
const VERSION: u32 = 0x0002_0000;

pub fn ff_state_version() -> u32
    ensures { result ≡ version }
{
    VERSION
}
