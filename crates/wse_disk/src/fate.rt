// What becomes of a write in an image.
ghost use Rattle.std.specs.Prelude.{◌≡◌};
ghost use Rattle.wse_disk.specs.Chosen.{fate};

/// What becomes of a write that a crash cuts off.
#[derive(Clone, Copy)]
pub enum Fate {
    /// Nothing of it is kept.
    Lost,
    /// It is kept whole.
    Kept,
    /// Its path is absent, or its bytes are zeros.
    Blank,
}

/// What the choice does to the write with that index.
pub fn fate_at(choice: u64, index: usize) -> Fate
    ensures { result ≡ fate choice index }
{
    let digit = if choice < 3 {
        choice
    } else {
        choice / 3u64.pow((index % 40) as u32) % 3
    };
    match digit {
        0 => Fate::Lost,
        1 => Fate::Kept,
        _ => Fate::Blank,
    }
}
