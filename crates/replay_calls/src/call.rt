// The lines on running things, by the letters that the format gives them.
ghost use Rattle.std.specs.Prelude.{◌≡◌};
ghost use Rattle.replay_calls.specs.Letters.{field_of, line_of};

use replay_text::Unanswered;

// What a line asks: to put words or a byte over something, or a call of the library.
#[derive(Clone, Copy, Debug, PartialEq, Eq)]
pub enum Line {
    PutItem,
    PutImage,
    PutKey,
    PutMirror,
    Call(Call),
}

#[derive(Clone, Copy, Debug, PartialEq, Eq)]
pub enum Call {
    ImageFresh,
    ImageCheck,
    SetTransform,
    MultiplyTransform,
    Transform,
    WorldPaletteUsed,
    WorldViewProjection,
    SetMaterial,
    Material,
    SetLightAt,
    SetLightEnabledAt,
    GetLightAt,
    IsLightEnabledAt,
    IsLightDefinedAt,
    VsSourceLightInputs,
    CompactedLightMasks,
    MarkFfVsDirty,
    TakeFfVsDirty,
    SetField,
    Refresh,
    FillSection,
    SectionRows,
}

impl TryFrom<u8> for Line {
    type Error = Unanswered;

    ghost try_from_gives = { λ letter line. line ≡ line_of letter };

    fn try_from(letter: u8) -> Result<Line, Unanswered> {
        Ok(match letter {
            b'I' => Line::PutItem,
            b'O' => Line::PutImage,
            b'Y' => Line::PutKey,
            b'J' => Line::PutMirror,
            b'F' => Line::Call(Call::ImageFresh),
            b'X' => Line::Call(Call::ImageCheck),
            b'S' => Line::Call(Call::SetTransform),
            b'M' => Line::Call(Call::MultiplyTransform),
            b'T' => Line::Call(Call::Transform),
            b'P' => Line::Call(Call::WorldPaletteUsed),
            b'W' => Line::Call(Call::WorldViewProjection),
            b'A' => Line::Call(Call::SetMaterial),
            b'B' => Line::Call(Call::Material),
            b'L' => Line::Call(Call::SetLightAt),
            b'E' => Line::Call(Call::SetLightEnabledAt),
            b'G' => Line::Call(Call::GetLightAt),
            b'N' => Line::Call(Call::IsLightEnabledAt),
            b'D' => Line::Call(Call::IsLightDefinedAt),
            b'V' => Line::Call(Call::VsSourceLightInputs),
            b'C' => Line::Call(Call::CompactedLightMasks),
            b'K' => Line::Call(Call::MarkFfVsDirty),
            b'Q' => Line::Call(Call::TakeFfVsDirty),
            b'H' => Line::Call(Call::SetField),
            b'R' => Line::Call(Call::Refresh),
            b'U' => Line::Call(Call::FillSection),
            b'Z' => Line::Call(Call::SectionRows),
            _ => return Err(Unanswered::BadLine),
        })
    }
}

// The five values at the image's end, by their places there.
#[derive(Clone, Copy, Debug, PartialEq, Eq)]
pub enum Field {
    FogStart,
    FogEnd,
    FogDensity,
    Ambient,
    TextureMask,
}

impl TryFrom<u32> for Field {
    type Error = Unanswered;

    ghost try_from_gives = { λ place field. field ≡ field_of place };

    fn try_from(place: u32) -> Result<Field, Unanswered> {
        match place {
            0 => Ok(Field::FogStart),
            1 => Ok(Field::FogEnd),
            2 => Ok(Field::FogDensity),
            3 => Ok(Field::Ambient),
            4 => Ok(Field::TextureMask),
            _ => Err(Unanswered::BadLine),
        }
    }
}
