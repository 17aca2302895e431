// The version of the interface.
ghost use Rattle.std.specs.Prelude.{◌≡◌};
ghost use Rattle.host.specs.Version.{version};

#[unsafe(no_mangle)]
pub extern "C" fn ff_state_version() -> u32
    ensures { result ≡ version }
{
    host::version::ff_state_version()
}
