// Floats, rows and matrices by the words of their bits.
ghost use Rattle.std.specs.Prelude.{◌≡◌, ◌+◌, ◌<◌, ◌≤◌, length};
ghost use Rattle.replay_ops.specs.Call.{float_at, float_words, matrix_at, matrix_words, one_float, one_matrix, row_at, row_words};

use d3d9_types::{D3DMATRIX, Row};
use float32::{bits_of, of_bits};
use replay_text::{Unanswered, Words, exactly};

fn float_at(words: &[u32], at: usize) -> f32
    requires { at < length words.now }
    ensures { result ≡ float_at words.now at }
{
    of_bits(words[at])
}

// A row and a matrix each name their own four fields, as their bytes do in `codec`.
fn row_at(words: &[u32], at: usize) -> Row
    requires { at + 4 ≤ length words.now }
    ensures { result ≡ row_at words.now at }
{
    Row {
        x: float_at(words, at),
        y: float_at(words, at + 1),
        z: float_at(words, at + 2),
        w: float_at(words, at + 3),
    }
}

pub fn matrix_at(words: &[u32], at: usize) -> D3DMATRIX
    requires { at + 16 ≤ length words.now }
    ensures { result ≡ matrix_at words.now at }
{
    D3DMATRIX {
        r0: row_at(words, at),
        r1: row_at(words, at + 4),
        r2: row_at(words, at + 8),
        r3: row_at(words, at + 12),
    }
}

pub fn one_float(words: &[u32]) -> Result<f32, Unanswered>
    ensures { result ≡ one_float words.now }
{
    Ok(float_at(&exactly::<1>(words)?, 0))
}

pub fn one_matrix(words: &[u32]) -> Result<D3DMATRIX, Unanswered>
    ensures { result ≡ one_matrix words.now }
{
    Ok(matrix_at(&exactly::<16>(words)?, 0))
}

// No `From` here or below: both types are other crates'.
pub fn float_words(x: f32) -> Words
    ensures { result ≡ float_words x }
{
    Words::Scalar([bits_of(x)])
}

fn row_words(r: Row) -> [u32; 4]
    ensures { result ≡ row_words r }
{
    [r.x, r.y, r.z, r.w].map(|x| bits_of(x))
}

pub fn matrix_words(m: D3DMATRIX) -> Words
    ensures { result ≡ matrix_words m }
{
    Words::Matrix([m.r0, m.r1, m.r2, m.r3].map(row_words))
}
