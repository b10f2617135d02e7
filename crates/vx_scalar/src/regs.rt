ghost use Rattle.std.specs.Prelude.{◌≡◌, ◌<◌, slice_index};
ghost use Rattle.vx_flat.specs.Boot.{first_registers};
ghost use Rattle.vx_flat.specs.State.{with_register};

/// The registers x0 to x31, of which x0 is always 0.
#[derive(Clone, Copy, Debug)]
pub struct Regs {
    pub x: [u64; 32],
    ghost zero: { slice_index x 0 ≡ 0 },
}

impl Regs {
    /// The registers of a process that begins: x2 points below the top of the stack, and the others are 0.
    #[tactic(auto, unfolding(vx_flat::specs::Boot::first_registers))]
    pub fn first() -> Regs
        ensures { result.x ≡ first_registers }
    {
        let mut x = [0; 32];
        x[2] = 0x3f_ffff_ff00;
        Regs { x }
    }

    /// The number in a register.
    pub fn read(&self, r: u8) -> u64
        requires { r < 32 }
        ensures { result ≡ slice_index self.now.x r }
    {
        self.x[r as usize]
    }

    /// Puts a number into a register; x0 stays 0.
    pub fn write(&mut self, rd: u8, value: u64)
        requires { rd < 32 }
        ensures { self.new.x ≡ with_register self.old.x rd value }
    {
        if rd != 0 {
            self.x[rd as usize] = value;
        }
    }
}
