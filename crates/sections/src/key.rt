// What the sections depend on of a vertex shader's key (dxso/ff.rs).
ghost use Rattle.std.specs.Prelude.{◌≡◌};
ghost use Rattle.sections.specs.Key.{light_limit};

#[repr(C)]
#[derive(Clone, Copy, Debug, PartialEq, Eq)]
pub struct FfVsKey {
    pub has_rhw: bool,
    pub lighting_enabled: bool,
    pub specular_enable: bool,
    pub vertex_blend_indexed: bool,
    // The song preview, of at most four lights (document 02, T-01).
    pub preview: bool,
    pub light_active_mask: u8,
    pub fog_mode: u8,
    pub vertex_blend_count: u8,
}

// How many of the active lights are packed under the key, at most.
#[tactic(auto, unfolding(crate::specs::Key::limit_of))]
pub fn light_limit(key: FfVsKey) -> usize
    ensures { result ≡ light_limit key }
{
    if key.preview { 4 } else { 8 }
}
