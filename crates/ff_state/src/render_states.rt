// Fog, the ambient colour and the texture mask. None of the setters refuses, and each dirties its section, an equal value too.
// Two lines of one form each: a field and the section's bit are all that differs, and all that is said.
ghost use Rattle.std.specs.Prelude.{◌≡◌};
ghost use Rattle.ff_state.specs.RenderStates.{set_fog_start, set_fog_end, set_fog_density, set_ambient, set_texture_mask};

use crate::state::FfState;
use sections::{AMBIENT, FOG, TT};

impl FfState {
    #[tactic(auto, unfolding(crate::specs::RenderStates::set_fog_start))]
    pub fn store_fog_start(&mut self, start: f32)
        ensures { self.new ≡ set_fog_start self.old start }
    {
        self.render_states.fog_start = start;
        self.mark_sections(FOG);
    }

    pub fn set_fog_start(mut self, start: f32) -> FfState
        ensures { result ≡ set_fog_start self start }
    {
        self.store_fog_start(start);
        self
    }

    #[tactic(auto, unfolding(crate::specs::RenderStates::set_fog_end))]
    pub fn store_fog_end(&mut self, end: f32)
        ensures { self.new ≡ set_fog_end self.old end }
    {
        self.render_states.fog_end = end;
        self.mark_sections(FOG);
    }

    pub fn set_fog_end(mut self, end: f32) -> FfState
        ensures { result ≡ set_fog_end self end }
    {
        self.store_fog_end(end);
        self
    }

    #[tactic(auto, unfolding(crate::specs::RenderStates::set_fog_density))]
    pub fn store_fog_density(&mut self, density: f32)
        ensures { self.new ≡ set_fog_density self.old density }
    {
        self.render_states.fog_density = density;
        self.mark_sections(FOG);
    }

    pub fn set_fog_density(mut self, density: f32) -> FfState
        ensures { result ≡ set_fog_density self density }
    {
        self.store_fog_density(density);
        self
    }

    #[tactic(auto, unfolding(crate::specs::RenderStates::set_ambient))]
    pub fn store_ambient(&mut self, color: u32)
        ensures { self.new ≡ set_ambient self.old color }
    {
        self.render_states.ambient = color;
        self.mark_sections(AMBIENT);
    }

    pub fn set_ambient(mut self, color: u32) -> FfState
        ensures { result ≡ set_ambient self color }
    {
        self.store_ambient(color);
        self
    }

    #[tactic(auto, unfolding(crate::specs::RenderStates::set_texture_mask))]
    pub fn store_texture_mask(&mut self, mask: u8)
        ensures { self.new ≡ set_texture_mask self.old mask }
    {
        self.tt_active_mask = mask;
        self.mark_sections(TT);
    }

    pub fn set_texture_mask(mut self, mask: u8) -> FfState
        ensures { result ≡ set_texture_mask self mask }
    {
        self.store_texture_mask(mask);
        self
    }
}
