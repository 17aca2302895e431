// The render states that rows are made from: D3DRS_FOGSTART, D3DRS_FOGEND, D3DRS_FOGDENSITY, D3DRS_AMBIENT.
#[repr(C)]
#[derive(Clone, Copy, Debug, Default, PartialEq)]
pub struct RenderStates {
    pub fog_start: f32,
    pub fog_end: f32,
    pub fog_density: f32,
    pub ambient: u32,
}
