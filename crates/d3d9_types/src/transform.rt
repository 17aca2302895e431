// D3DTRANSFORMSTATETYPE: the numbers that name a transform. D3DTS_WORLDMATRIX(i) is D3DTS_WORLD + i, for i up to 255.
pub const D3DTS_VIEW: u32 = 2;

pub const D3DTS_PROJECTION: u32 = 3;

pub const D3DTS_TEXTURE0: u32 = 16;

pub const D3DTS_TEXTURE7: u32 = 23;

pub const D3DTS_WORLD: u32 = 256;
