// A table of a register's steps.
ghost use Rattle.std.specs.Prelude.{◌≡◌, ◌%◌, ◌<◌, IsTrue, length};
ghost use Rattle.crc32c_register.specs.Register.{step_bits};
ghost use Rattle.crc32c_register.specs.Rows.{rows_right};

// What each digit below N is, STEPS steps on. The rows are lent: a table that held them would be copied to the stack
// at each look.
pub struct Table<const STEPS: u32, const N: usize> {
    pub rows: &'static [u32],
    pub ghost some: { 0 < N },
    pub ghost whole: { length rows.now ≡ N },
    pub ghost right: { IsTrue (rows_right STEPS 0 rows.now) },
}

impl<const STEPS: u32, const N: usize> Table<STEPS, N> {
    // The low digit of a register, STEPS steps on.
    pub fn look(&self, register: u32) -> u32
        ensures { result ≡ step_bits STEPS (register % N) }
    {
        self.rows[register as usize % N]
    }
}
