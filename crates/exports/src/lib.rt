// Parts of the calls as C functions, for tests and benchmarks.
#![tactic(auto)]

ghost use Rattle.std.specs.Prelude.{◌≡◌};
ghost use Rattle.defs.specs.Computing.Words.{well_formedb};
ghost use Rattle.exports.specs.Read.{vertex_answer};
ghost use Rattle.exports.specs.Strips.{rewrite_answer, rewritten, decoded_answer};

use defs::Figures;

// Question 5.
#[unsafe(no_mangle)]
pub extern "C" fn vikelodu_well_formed(strip: &[u16]) -> bool
    ensures { result ≡ well_formedb strip.now }
{
    form::well_formed(strip)
}

// The number of runs of a well-formed strip.
#[unsafe(no_mangle)]
pub extern "C" fn vikelodu_decoded(strip: &[u16]) -> u32
    ensures { result ≡ decoded_answer strip.now }
{
    let mut first = [0u16; limits::FIRSTS];
    let mut lows = [0u16; limits::MOST_RECORDS];
    let mut highs = [0u16; limits::MOST_RECORDS];
    match decode::decode(strip, &mut first, &mut lows, &mut highs) {
        Some(t) => t as u32,
        None => 4294967295,
    }
}

// A well-formed strip, written anew.
#[unsafe(no_mangle)]
pub extern "C" fn vikelodu_rewrite(strip: &mut [u16]) -> u64
    ensures fact_1 { result ≡ rewrite_answer strip.old }
    ensures fact_2 { strip.new ≡ rewritten strip.old }
{
    let mut first = [0u16; limits::FIRSTS];
    let mut lows = [0u16; limits::MOST_RECORDS];
    let mut highs = [0u16; limits::MOST_RECORDS];
    match decode::decode(strip, &mut first, &mut lows, &mut highs) {
        Some(t) => {
            let g = Figures {
                width: strip[limits::WIDTH],
                resolution: strip[limits::RESOLUTION],
                columns: strip[limits::COLUMNS],
            };
            let gap = strip[limits::GAP];
            encode::encode(strip, g, gap, &first, &lows, &highs, t);
            0
        }
        None => 5,
    }
}

// What vertex_answer says where there is no such vertex or turn.
const NO_VERTEX: u64 = 4294967296;

// Vertex i of an outline in turn t, as it is read for cells.
#[unsafe(no_mangle)]
pub extern "C" fn vikelodu_vertex(o: &[u16], t: u16, i: u16) -> u64
    ensures { result ≡ vertex_answer o.now t i }
{
    if numbers::MOST_TURN < t {
        return NO_VERTEX;
    }
    let k = i as usize;
    if o.len() / 2 <= k {
        return NO_VERTEX;
    }
    let b = outline::bounds_of(o);
    let f = outline::frame_of(o, b, t);
    let x = outline::x_at(o, f, k);
    let y = outline::y_at(o, f, k);
    65536 * y as u64 + x as u64
}
