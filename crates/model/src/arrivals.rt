// How often jobs come.
ghost use Rattle.std.specs.Prelude.{◌≡◌};
ghost use Rattle.model.specs.Arrivals.{ArrivalsMeaning, LawfulArrivals};

pub trait Arrivals {
    ghost meaning: { Self → ArrivalsMeaning };

    // What each `impl` must prove.
    ghost lawful: { (x : Self) → LawfulArrivals (meaning x) };

    fn tasks(&self) -> u8
        ensures { result ≡ (meaning self.now).tasks };

    // The most releases of `task` in any `length` ticks in a row.
    fn count(&self, task: u8, length: u32) -> u64
        ensures { result ≡ (meaning self.now).count task length };
}
