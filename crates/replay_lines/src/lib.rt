// Replays a list of calls from a reader to a writer. A line has a letter and the bits
// of the arguments, floats as words of eight hexadecimal digits, a matrix as 16 of them by rows:
//
//     s W           float32::sqrt
//     c W           float32::cos
//     m W*16 W*16   matrix::mat_mul
//     t W*16        matrix::transpose
//     i W*16        matrix::inverse
//
// Other calls are made on running things that begin as zeros: an image of 24,224 bytes, an item of
// 128, a key of 8 and a mirror of 17,840. A call is lent the first LEN bytes of the item, or of what
// its line names. `-` is a word that is not looked at.
//
//     I W*26        puts the words over the item's first 104 bytes, least byte first
//     O AT BYTE     puts a byte over the image's byte at AT
//     Y W W         puts the words over the key's eight bytes, least byte first: has_rhw,
//                   lighting_enabled, specular_enable, vertex_blend_indexed, preview,
//                   light_active_mask, fog_mode, vertex_blend_count
//     J AT W        puts the word over the mirror's four bytes at 4 * AT, least byte first
//     F - LEN       calls::image_fresh, on the image's first LEN bytes
//     X - LEN       calls::image_check, on the same
//     S STATE LEN   transform_calls::set_transform
//     M STATE LEN   transform_calls::multiply_transform
//     T STATE LEN   transform_calls::transform
//     P - -         transform_calls::world_palette_used
//     W - LEN       transform_calls::world_view_projection
//     A - LEN       calls::set_material
//     B - LEN       calls::material
//     L INDEX LEN   light_calls::set_light_at
//     E INDEX ON    light_calls::set_light_enabled_at
//     G INDEX LEN   light_calls::get_light_at
//     N INDEX -     light_calls::is_light_enabled_at
//     D INDEX -     light_calls::is_light_defined_at
//     V - -         light_calls::vs_source_light_inputs
//     C - -         light_calls::compacted_light_masks
//     K BITS -      calls::mark_ff_vs_dirty
//     Q - -         calls::take_ff_vs_dirty
//     H FIELD W     sets one of the five values at the image's end: 0 calls::set_fog_start,
//                   1 calls::set_fog_end, 2 calls::set_fog_density, 3 calls::set_ambient,
//                   4 calls::set_texture_mask of W's least byte
//     R - LEN       refresh_calls::refresh under the key, on the mirror's first LEN bytes
//     U BIT LEN     pack_calls::fill_section of the section whose dirty bit is BIT, under the key,
//                   into the mirror's first LEN bytes
//     Z BIT -       pack_calls::section_rows of that section under the key; of the bit 0
//                   pack_calls::vs_row_count
//
// The line written has the words of the answer, `refused` and a number of document 01, or `bad line`
// for one that is not of this form: so too for a LEN past the end of what is lent, an AT past the end
// of the mirror, a BIT of no section, and a FIELD above 4. The words of an accepted call on running
// things are the number that it was lent (0 where it was lent none), and the digests of the item, of
// the image and of the mirror: from 0, for each byte the sum with the byte and 1, times 0x01000193,
// modulo 2^32.
#![tactic(auto)]

mod line;
mod stream;

pub use stream::replay;
