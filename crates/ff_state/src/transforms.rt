// Transforms, by the numbers of D3DTRANSFORMSTATETYPE.
ghost use Rattle.std.specs.Prelude.{◌≡◌, ◌<◌, Some, IfSome};
ghost use Rattle.ff_state.specs.Changed.{changed, in_place};
ghost use Rattle.ff_state.specs.Transforms.{slot_of, InRange, place_matrix, placed, place_bits, set_transform, multiply_transform, transform_of, unknown_state_text};
ghost use Rattle.ff_state.specs.Transforms as Transforms;

use crate::state::FfState;
use d3d9_types::{
    D3DMATRIX, D3DTS_PROJECTION, D3DTS_TEXTURE0, D3DTS_TEXTURE7, D3DTS_VIEW, D3DTS_WORLD,
};
use matrix::mat_mul;
use sections::{LIGHTS, PALETTE, PROJ, TT, WV};
use std::error::Error;
use std::fmt;

// The number of the last world matrix.
const LAST_WORLD: u32 = D3DTS_WORLD + 255;

// Where a transform is stored.
#[derive(Clone, Copy)]
pub enum Place {
    View,
    Projection,
    Texture(usize),
    Palette(usize),
}

// A number that names no place.
#[derive(Clone, Copy, Debug, PartialEq, Eq)]
pub struct UnknownState;

impl fmt::Display for UnknownState {
    ghost output = { λ _. Some unknown_state_text };

    fn fmt<W: fmt::Write>(&self, f: &mut fmt::Formatter<W>) -> fmt::Result {
        f.write_str("a transform state that is none")
    }
}

impl Error for UnknownState {}

// What a number names, if anything. Document 01 names the function, so it is no `TryFrom`.
#[tactic(auto, unfolding(crate::specs::Transforms::slot_of))]
pub fn slot_of(state: u32) -> Option<Place>
    ensures value { result ≡ slot_of state }
    ensures in_range { IfSome result InRange }
{
    match state {
        D3DTS_VIEW => Some(Place::View),
        D3DTS_PROJECTION => Some(Place::Projection),
        D3DTS_TEXTURE0..=D3DTS_TEXTURE7 => {
            Some(Place::Texture((state - D3DTS_TEXTURE0) as usize))
        }
        D3DTS_WORLD..=LAST_WORLD => Some(Place::Palette((state - D3DTS_WORLD) as usize)),
        _ => None,
    }
}

// The sections that a matrix stored there feeds. A view change moves the lights, which are packed in
// view space; palette[0] is the world matrix of WV too.
#[tactic(auto, unfolding(crate::specs::Transforms::place_sections))]
fn place_bits(place: Place) -> u8
    ensures { result ≡ place_bits place }
{
    match place {
        Place::View => WV + PALETTE + LIGHTS,
        Place::Projection => PROJ,
        Place::Texture(_) => TT,
        Place::Palette(i) => { if i == 0 { WV + PALETTE } else { PALETTE } }
    }
}

// A palette index raises the highest one used.
#[tactic(auto, unfolding(crate::specs::Transforms::placed))]
fn place_at(s: &mut FfState, place: Place, m: D3DMATRIX)
    requires { InRange place }
    ensures { s.new ≡ placed s.old place m }
{
    match place {
        Place::View => s.view = m,
        Place::Projection => s.projection = m,
        Place::Texture(i) => s.texture_transforms[i] = m,
        Place::Palette(i) => {
            s.world_palette[i] = m;
            s.world_palette_high_water = s.world_palette_high_water.max(i as u16);
        }
    }
}

#[tactic(auto, unfolding(crate::specs::Transforms::place_matrix))]
fn place_matrix(s: &FfState, place: Place) -> D3DMATRIX
    requires { InRange place }
    ensures { result ≡ place_matrix s.now place }
{
    match place {
        Place::View => s.view,
        Place::Projection => s.projection,
        Place::Texture(i) => s.texture_transforms[i],
        Place::Palette(i) => s.world_palette[i],
    }
}

impl FfState {
    #[tactic(auto, unfolding(crate::specs::Transforms::set_transform, crate::specs::Transforms::change_at))]
    pub fn store_transform(&mut self, state: u32, m: D3DMATRIX) -> Result<(), UnknownState>
        ensures { in_place result self.new ≡ set_transform self.old state m }
    {
        let place = slot_of(state).ok_or(UnknownState)?;
        place_at(self, place, m);
        self.mark_sections(place_bits(place));
        Ok(())
    }

    #[tactic(auto, unfolding(crate::specs::Transforms::set_transform, crate::specs::Transforms::change_at, crate::specs::Changed::changed))]
    pub fn set_transform(mut self, state: u32, m: D3DMATRIX) -> Result<FfState, UnknownState>
        ensures { changed self result ≡ set_transform self state m }
    {
        self.store_transform(state, m)?;
        Ok(self)
    }

    // Stores argument x slot, by document 02 the order of Microsoft's page; the Rust has the other.
    #[tactic(auto, unfolding(crate::specs::Transforms::multiply_transform, crate::specs::Transforms::change_at))]
    pub fn multiply_in_place(&mut self, state: u32, m: D3DMATRIX) -> Result<(), UnknownState>
        ensures { in_place result self.new ≡ multiply_transform self.old state m }
    {
        let place = slot_of(state).ok_or(UnknownState)?;
        let product = mat_mul(m, place_matrix(self, place));
        place_at(self, place, product);
        self.mark_sections(place_bits(place));
        Ok(())
    }

    #[tactic(auto, unfolding(crate::specs::Transforms::multiply_transform, crate::specs::Transforms::change_at, crate::specs::Changed::changed))]
    pub fn multiply_transform(mut self, state: u32, m: D3DMATRIX) -> Result<FfState, UnknownState>
        ensures { changed self result ≡ multiply_transform self state m }
    {
        self.multiply_in_place(state, m)?;
        Ok(self)
    }

    // Of a state that is lent: `transform` copies its own.
    #[tactic(auto, unfolding(crate::specs::Transforms::transform_of, crate::specs::Transforms::read_at))]
    pub fn transform_at(&self, state: u32) -> Result<D3DMATRIX, UnknownState>
        ensures { result ≡ transform_of self.now state }
    {
        let place = slot_of(state).ok_or(UnknownState)?;
        Ok(place_matrix(self, place))
    }

    pub fn transform(self, state: u32) -> Result<D3DMATRIX, UnknownState>
        ensures { result ≡ transform_of self state }
    {
        self.transform_at(state)
    }

    // The highest palette index ever set or multiplied, plus 1.
    #[tactic(auto, unfolding(crate::specs::Transforms::world_palette_used))]
    pub fn world_palette_used(self) -> u32
        ensures { result ≡ Transforms.world_palette_used self }
    {
        u32::from(self.world_palette_high_water) + 1
    }

    #[tactic(auto, unfolding(crate::specs::Transforms::world_view_projection))]
    pub fn world_view_projection(self) -> D3DMATRIX
        ensures { result ≡ Transforms.world_view_projection self }
    {
        mat_mul(mat_mul(self.world_palette[0], self.view), self.projection)
    }
}
