// States and a key to pack.
use d3d9_types::{D3DLIGHT_SPOT, D3DLIGHT9, D3DMATRIX, D3DVECTOR, Row};
use ff_lights::{set_light_at, set_light_enabled_at};
use ff_state::FfState;
use sections::FfVsKey;

fn spread_row(x: f32) -> Row {
    Row {
        x,
        y: x + 1.0,
        z: x + 2.0,
        w: x + 3.0,
    }
}

// Sixteen numbers, none of them known where the loop is compiled.
pub fn spread(x: f32) -> D3DMATRIX {
    D3DMATRIX {
        r0: spread_row(x),
        r1: spread_row(x * 2.0),
        r2: spread_row(x * 3.0),
        r3: spread_row(x * 5.0),
    }
}

// The fresh state with another world matrix.
pub fn spread_world(x: f32) -> FfState {
    let mut s = FfState::new();
    s.world_palette[0] = spread(x);
    s
}

// Lit and specular; eight lights; indexed, so that the palette is of 40.
pub fn full_key() -> FfVsKey {
    FfVsKey {
        has_rhw: false,
        lighting_enabled: true,
        specular_enable: true,
        vertex_blend_indexed: true,
        preview: false,
        light_active_mask: 0xFF,
        fog_mode: 0,
        vertex_blend_count: 1,
    }
}

fn spot() -> D3DLIGHT9 {
    let mut light = D3DLIGHT9::default();
    let direction = D3DVECTOR {
        x: 1.0,
        y: 2.0,
        z: 3.0,
    };
    light.type_ = D3DLIGHT_SPOT;
    light.direction = direction;
    light.theta = 0.5;
    light.phi = 1.0;
    light.falloff = 1.0;
    light
}

fn with_spot(s: FfState, index: u32) -> FfState {
    set_light_at(s, index, spot())
        .and_then(|t| set_light_enabled_at(t, index, true))
        .unwrap_or(s)
}

// The fresh state with eight spot lights on.
pub fn eight_spots() -> FfState {
    (0..8).fold(FfState::new(), with_spot)
}
