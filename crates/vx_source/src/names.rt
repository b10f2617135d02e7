ghost use Rattle.std.specs.Prelude.{◌≡◌, ◌<◌, length, map, option_map};
ghost use Rattle.vx_source.specs.Names.{register_names, register_name, vector_names, vector_name, control_name};

static REGISTER_NAMES: [&str; 32] = [
    "zero", "ra", "sp", "gp", "tp", "t0", "t1", "t2", "s0", "s1", "a0", "a1", "a2", "a3", "a4",
    "a5", "a6", "a7", "s2", "s3", "s4", "s5", "s6", "s7", "s8", "s9", "s10", "s11", "t3", "t4",
    "t5", "t6",
];

/// The names of the integer registers in order (RISC-V psABI, integer register convention).
#[tactic(auto, unfolding(crate::specs::Names::register_names))]
pub fn register_names() -> &'static [&'static str]
    ensures names { map (λ name. name.now) result.now ≡ register_names }
    ensures count { length result.now ≡ 32 }
{
    &REGISTER_NAMES
}

/// The name of the integer register of a number below 32.
pub fn register_name(number: u8) -> &'static str
    requires { number < 32 }
    ensures { result.now ≡ register_name number }
{
    register_names()[usize::from(number)]
}

static VECTOR_NAMES: [&str; 32] = [
    "v0", "v1", "v2", "v3", "v4", "v5", "v6", "v7", "v8", "v9", "v10", "v11", "v12", "v13", "v14",
    "v15", "v16", "v17", "v18", "v19", "v20", "v21", "v22", "v23", "v24", "v25", "v26", "v27",
    "v28", "v29", "v30", "v31",
];

/// The names of the vector registers in order (RISC-V "V" 1.0, section 3.1).
#[tactic(auto, unfolding(crate::specs::Names::vector_names))]
pub fn vector_names() -> &'static [&'static str]
    ensures names { map (λ name. name.now) result.now ≡ vector_names }
    ensures count { length result.now ≡ 32 }
{
    &VECTOR_NAMES
}

/// The name of the vector register of a number below 32.
pub fn vector_name(number: u8) -> &'static str
    requires { number < 32 }
    ensures { result.now ≡ vector_name number }
{
    vector_names()[usize::from(number)]
}

/// The name of the control register of that number, where the text has one (RISC-V "V" 1.0, section 3).
#[tactic(auto, unfolding(crate::specs::Names::named_controls))]
pub fn control_name(number: u64) -> Option<&'static str>
    ensures { option_map (λ name. name.now) result ≡ control_name number }
{
    match number {
        0x008 => Some("vstart"),
        0x009 => Some("vxsat"),
        0x00a => Some("vxrm"),
        0x00f => Some("vcsr"),
        0xc20 => Some("vl"),
        0xc21 => Some("vtype"),
        0xc22 => Some("vlenb"),
        _ => None,
    }
}
