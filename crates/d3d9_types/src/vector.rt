// Positions and directions.
#[repr(C)]
#[derive(Clone, Copy, Debug, Default, PartialEq)]
pub struct D3DVECTOR {
    pub x: f32,
    pub y: f32,
    pub z: f32,
}

impl D3DVECTOR {
    // Each component by f.
    pub fn map<F: Fn(f32) -> f32>(self, f: F) -> D3DVECTOR
        requires x { F.pre f self.x }
        requires y { F.pre f self.y }
        requires z { F.pre f self.z }
        ensures x { F.post f self.x result.x }
        ensures y { F.post f self.y result.y }
        ensures z { F.post f self.z result.z }
    {
        D3DVECTOR {
            x: f(self.x),
            y: f(self.y),
            z: f(self.z),
        }
    }
}
