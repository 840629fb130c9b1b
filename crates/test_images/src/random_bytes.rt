//! Images of random bytes, without a file header and with one that is mostly right.
use crate::building::file_header;
use crate::comparison::Bench;
use draws::Draws;

/// Size of the longest image in bytes.
const SIZE: usize = 400;

/// Compares `count` images of random bytes, and the same number with a file header in which one byte in 64 is random.
pub(crate) fn compare_random(count: usize, draws: &mut Draws, bench: &mut Bench) {
    for _ in 0..count {
        let mut image = [0; SIZE];
        draws.fill(&mut image);
        let size = draws.below(SIZE);
        bench.compare(&image[..size]);
        draws.fill(&mut image);
        let header = file_header(draws.below(5) as u16);
        for place in 0..header.len() {
            if draws.below(64) != 0 {
                image[place] = header[place];
            }
        }
        bench.compare(&image);
    }
}
