// The root and the cosine, float bits in and float bits out. A NaN is answered as 0x7FC00000.
ghost use Rattle.std.specs.Prelude.{◌≡◌};
ghost use Rattle.host.specs.Scalars.{ff_sqrt, ff_cos};

#[unsafe(no_mangle)]
pub extern "C" fn ff_sqrt(x: u32) -> u32
    ensures { result ≡ ff_sqrt x }
{
    host::scalars::ff_sqrt(x)
}

#[unsafe(no_mangle)]
pub extern "C" fn ff_cos(x: u32) -> u32
    ensures { result ≡ ff_cos x }
{
    host::scalars::ff_cos(x)
}
