ghost use Rattle.std.specs.Prelude.{◌≡◌, ◌≢◌, ℕ, ◌*◌, ◌/◌, ◌%◌, ◌^◌, ◌<◌, ◌≤◌, List, length, slice_index, IsTrue};
ghost use Rattle.vx_vstate.specs.State.{VectorState, with_setting, setting_of, reconfigured};
ghost use Rattle.vx_vstate.specs.Groups.{emul_eighths, is_group_size, registers_of_group};
ghost use Rattle.vx_vstate.specs.Vtype.{is_vtype, sew, vlmax};
ghost use Rattle.vx_vstate.specs.declared.avl.Avl.{Avl};
ghost use Rattle.vx_base.specs.Numbers.{field, from_little_endian};
ghost use Rattle.vx_base.specs.Options.{is_register_length};
ghost use Rattle.vx_vstate.specs.Registers.{
  words_of_register,
  place_of,
  word_at,
  element,
  element_word,
  element_bit,
  with_element,
  AreApart,
  is_byte_width,
  is_element_width,
  byte_at,
  bytes_at,
};

/// An element that was set reads as set: as the value reduced to its width.
pub fn set_element_is_read()
    ensures { (vlen : ℕ) (words : List ℕ) (register width index value : ℕ) → place_of vlen register (element_word width index) < length words → element vlen (with_element vlen words register width index value) register width index ≡ value % 2 ^ width }
{}

/// Every element, of any width, that shares no bit with one that was set stays.
pub fn other_elements_stay()
    ensures { (vlen : ℕ) (words : List ℕ) (register width index value other_register other_width other_index : ℕ) → AreApart vlen register width index other_register other_width other_index → element vlen (with_element vlen words register width index value) other_register other_width other_index ≡ element vlen words other_register other_width other_index }
{}

/// Elements of one width from one register on share no bit where their indices differ.
pub fn other_indices_are_apart()
    ensures { (vlen register width index other_index : ℕ) → index ≢ other_index → AreApart vlen register width index register width other_index }
{}

/// Elements within two registers share no bit where the registers differ.
pub fn other_registers_are_apart()
    ensures { (vlen register width index other_register other_width other_index : ℕ) → register ≢ other_register → element_word width index < words_of_register vlen → element_word other_width other_index < words_of_register vlen → AreApart vlen register width index other_register other_width other_index }
{}

/// Setting an element leaves the words that it doesn't lie in, how many words there are, and that each has 64 bits.
pub fn set_element_leaves_words()
    ensures other { (vlen : ℕ) (words : List ℕ) (register width index value place : ℕ) → place_of vlen register (element_word width index) ≢ place → slice_index (with_element vlen words register width index value) place ≡ slice_index words place }
    ensures count { (vlen : ℕ) (words : List ℕ) (register width index value : ℕ) → length (with_element vlen words register width index value) ≡ length words }
    ensures width { (vlen : ℕ) (words : List ℕ) (register width index value place : ℕ) → IsTrue (is_element_width width) → slice_index words place < 2 ^ 64 → slice_index (with_element vlen words register width index value) place < 2 ^ 64 }
{}

/// A word is its elements of any one width: it is the number below 2^64 that has them as its fields.
pub fn word_is_its_elements()
    ensures { (vlen : ℕ) (words : List ℕ) (register width w n : ℕ) → IsTrue (is_element_width width) → word_at vlen words register w < 2 ^ 64 → n < 2 ^ 64 → ((index : ℕ) → element_word width index ≡ w → element vlen words register width index ≡ field n (element_bit width index) width) → word_at vlen words register w ≡ n }
{}

/// An element of 8, 16, 32 or 64 bits is the number whose bytes, least first, are as many of the registers' bytes from
/// its place on.
pub fn element_is_its_bytes()
    ensures { (vlen : ℕ) (words : List ℕ) (register width index : ℕ) → IsTrue (is_register_length vlen) → IsTrue (is_byte_width width) → element vlen words register width index ≡ from_little_endian (bytes_at vlen words register (index * (width / 8)) (width / 8)) }
{}

/// Bit i of a mask, its element i of one bit, is bit i % 8 of byte i / 8.
pub fn mask_bit_is_of_its_byte()
    ensures { (vlen : ℕ) (words : List ℕ) (register index : ℕ) → IsTrue (is_register_length vlen) → element vlen words register 1 index ≡ field (byte_at vlen words register (index / 8)) (index % 8) 1 }
{}

/// The elements of a group lie in its registers: those below VLMAX, at a width whose group isn't below an eighth of a
/// register. A mask's bits below VLMAX lie in its one register.
pub fn elements_lie_in_their_group()
    ensures group { (vlen vtype width index : ℕ) → IsTrue (is_register_length vlen) → IsTrue (is_byte_width width) → 1 ≤ emul_eighths vtype width → index < vlmax vlen vtype → element_word width index < registers_of_group (emul_eighths vtype width) * words_of_register vlen }
    ensures mask { (vlen vtype index : ℕ) → IsTrue (is_register_length vlen) → index < vlmax vlen vtype → element_word 1 index < words_of_register vlen }
{}

/// SEW is 8, 16, 32 or 64 bits, and a group whose EMUL is from an eighth to 8 takes 1, 2, 4 or 8 registers.
pub fn groups_have_sizes()
    ensures width { (vtype : ℕ) → IsTrue (is_vtype vtype) → IsTrue (is_byte_width (sew vtype)) }
    ensures registers { (vtype width : ℕ) → IsTrue (is_byte_width width) → 1 ≤ emul_eighths vtype width → emul_eighths vtype width ≤ 64 → IsTrue (is_group_size (registers_of_group (emul_eighths vtype width))) }
{}

/// A configuration does to an instruction's view of a state what it does to the state.
pub fn views_are_configured_alike()
    ensures { (state : VectorState) (scalar : ℕ) (avl : Avl) (wanted : ℕ) → setting_of (with_setting state avl wanted) scalar ≡ reconfigured (setting_of state scalar) avl wanted }
{}
