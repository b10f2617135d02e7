ghost use Rattle.std.specs.Prelude.{◌≡◌, bit_and};
ghost use Rattle.vx_decode.specs.Lookup.{operation_of, operation_among};

use vx_rows::{ElemOp, FixedOp, MaskOp, Op, PermOp, SetOp, WidenOp, fits_one_at_most};

/// The operations of the opcode OP-V (RISC-V "V" 1.0, sections 6 and 10.1).
pub(crate) fn vector(word: u32) -> Option<Op>
    requires { bit_and word 0x7f ≡ 0x57 }
    ensures { result ≡ operation_of word }
{
    match word & 0x0000_707f {
        0x0057 => opivv(word),
        0x2057 => opmvv(word),
        0x3057 => opivi(word),
        0x4057 => opivx(word),
        0x6057 => opmvx(word),
        0x7057 => set(word),
        _ => None,
    }
}

/// Category OPIVV.
fn opivv(word: u32) -> Option<Op>
    requires { bit_and word 0x707f ≡ 0x57 }
    ensures { result ≡ operation_of word }
{
    fits_one_at_most();
    if let Some(op) = opivv_masked(word & 0xfc00_707f) {
        return Some(op);
    }
    if let Some(op) = opivv_fixed(word & 0xfe00_707f) {
        return Some(op);
    }
    opivv_move(word & 0xfff0_707f)
}

/// Category OPMVV.
fn opmvv(word: u32) -> Option<Op>
    requires { bit_and word 0x707f ≡ 0x2057 }
    ensures { result ≡ operation_of word }
{
    fits_one_at_most();
    if let Some(op) = opmvv_masked(word & 0xfc00_707f) {
        return Some(op);
    }
    if let Some(op) = opmvv_fixed(word & 0xfe00_707f) {
        return Some(op);
    }
    if let Some(op) = opmvv_unary(word & 0xfc0f_f07f) {
        return Some(op);
    }
    if let Some(op) = opmvv_unmasked(word & 0xfe0f_f07f) {
        return Some(op);
    }
    opmvv_nullary(word & 0xfdff_f07f)
}

/// Category OPIVI.
fn opivi(word: u32) -> Option<Op>
    requires { bit_and word 0x707f ≡ 0x3057 }
    ensures { result ≡ operation_of word }
{
    fits_one_at_most();
    if let Some(op) = opivi_masked(word & 0xfc00_707f) {
        return Some(op);
    }
    if let Some(op) = opivi_fixed(word & 0xfe00_707f) {
        return Some(op);
    }
    if let Some(op) = opivi_move(word & 0xfff0_707f) {
        return Some(op);
    }
    opivi_copy(word & 0xfe0f_f07f)
}

/// Category OPIVX.
fn opivx(word: u32) -> Option<Op>
    requires { bit_and word 0x707f ≡ 0x4057 }
    ensures { result ≡ operation_of word }
{
    fits_one_at_most();
    if let Some(op) = opivx_masked(word & 0xfc00_707f) {
        return Some(op);
    }
    if let Some(op) = opivx_fixed(word & 0xfe00_707f) {
        return Some(op);
    }
    opivx_move(word & 0xfff0_707f)
}

/// Category OPMVX.
fn opmvx(word: u32) -> Option<Op>
    requires { bit_and word 0x707f ≡ 0x6057 }
    ensures { result ≡ operation_of word }
{
    fits_one_at_most();
    if let Some(op) = opmvx_masked(word & 0xfc00_707f) {
        return Some(op);
    }
    opmvx_move(word & 0xfff0_707f)
}

/// The configuration of the vector unit.
fn set(word: u32) -> Option<Op>
    requires { bit_and word 0x707f ≡ 0x7057 }
    ensures { result ≡ operation_of word }
{
    fits_one_at_most();
    if let Some(op) = set_type(word & 0x8000_707f) {
        return Some(op);
    }
    if let Some(op) = set_number(word & 0xc000_707f) {
        return Some(op);
    }
    set_register(word & 0xfe00_707f)
}

/// The rows of OPIVV that may be masked, by funct6.
#[tactic(auto, unfolding(vx_rows::specs::Table::operations))]
fn opivv_masked(fixed: u32) -> Option<Op>
    ensures { result ≡ operation_among 0x707f 0x57 0xfc00707f fixed }
{
    let op = match fixed {
        0x0000_0057 => Op::Elem(ElemOp::VaddVv),
        0x0800_0057 => Op::Elem(ElemOp::VsubVv),
        0x1000_0057 => Op::Elem(ElemOp::VminuVv),
        0x1400_0057 => Op::Elem(ElemOp::VminVv),
        0x1800_0057 => Op::Elem(ElemOp::VmaxuVv),
        0x1c00_0057 => Op::Elem(ElemOp::VmaxVv),
        0x2400_0057 => Op::Elem(ElemOp::VandVv),
        0x2800_0057 => Op::Elem(ElemOp::VorVv),
        0x2c00_0057 => Op::Elem(ElemOp::VxorVv),
        0x3000_0057 => Op::Perm(PermOp::VrgatherVv),
        0x3800_0057 => Op::Perm(PermOp::Vrgatherei16Vv),
        0x6000_0057 => Op::Widen(WidenOp::VmseqVv),
        0x6400_0057 => Op::Widen(WidenOp::VmsneVv),
        0x6800_0057 => Op::Widen(WidenOp::VmsltuVv),
        0x6c00_0057 => Op::Widen(WidenOp::VmsltVv),
        0x7000_0057 => Op::Widen(WidenOp::VmsleuVv),
        0x7400_0057 => Op::Widen(WidenOp::VmsleVv),
        0x8000_0057 => Op::Fixed(FixedOp::VsadduVv),
        0x8400_0057 => Op::Fixed(FixedOp::VsaddVv),
        0x8800_0057 => Op::Fixed(FixedOp::VssubuVv),
        0x8c00_0057 => Op::Fixed(FixedOp::VssubVv),
        0x9400_0057 => Op::Elem(ElemOp::VsllVv),
        0x9c00_0057 => Op::Fixed(FixedOp::VsmulVv),
        0xa000_0057 => Op::Elem(ElemOp::VsrlVv),
        0xa400_0057 => Op::Elem(ElemOp::VsraVv),
        0xa800_0057 => Op::Fixed(FixedOp::VssrlVv),
        0xac00_0057 => Op::Fixed(FixedOp::VssraVv),
        0xb000_0057 => Op::Widen(WidenOp::VnsrlWv),
        0xb400_0057 => Op::Widen(WidenOp::VnsraWv),
        0xb800_0057 => Op::Fixed(FixedOp::VnclipuWv),
        0xbc00_0057 => Op::Fixed(FixedOp::VnclipWv),
        0xc000_0057 => Op::Mask(MaskOp::VwredsumuVs),
        0xc400_0057 => Op::Mask(MaskOp::VwredsumVs),
        _ => return None,
    };
    Some(op)
}

/// The rows of OPIVV with a fixed bit 25, by funct6 and that bit.
#[tactic(auto, unfolding(vx_rows::specs::Table::operations))]
fn opivv_fixed(fixed: u32) -> Option<Op>
    ensures { result ≡ operation_among 0x707f 0x57 0xfe00707f fixed }
{
    let op = match fixed {
        0x4000_0057 => Op::Widen(WidenOp::VadcVvm),
        0x4400_0057 => Op::Widen(WidenOp::VmadcVvm),
        0x4600_0057 => Op::Widen(WidenOp::VmadcVv),
        0x4800_0057 => Op::Widen(WidenOp::VsbcVvm),
        0x4c00_0057 => Op::Widen(WidenOp::VmsbcVvm),
        0x4e00_0057 => Op::Widen(WidenOp::VmsbcVv),
        0x5c00_0057 => Op::Elem(ElemOp::VmergeVvm),
        _ => return None,
    };
    Some(op)
}

/// The rows of OPIVV with one source, in the place of `vs1`.
#[tactic(auto, unfolding(vx_rows::specs::Table::operations))]
fn opivv_move(fixed: u32) -> Option<Op>
    ensures { result ≡ operation_among 0x707f 0x57 0xfff0707f fixed }
{
    let op = match fixed {
        0x5e00_0057 => Op::Elem(ElemOp::VmvVV),
        _ => return None,
    };
    Some(op)
}

/// The rows of OPMVV that may be masked, by funct6.
#[tactic(auto, unfolding(vx_rows::specs::Table::operations))]
fn opmvv_masked(fixed: u32) -> Option<Op>
    ensures { result ≡ operation_among 0x707f 0x2057 0xfc00707f fixed }
{
    let op = match fixed {
        0x0000_2057 => Op::Mask(MaskOp::VredsumVs),
        0x0400_2057 => Op::Mask(MaskOp::VredandVs),
        0x0800_2057 => Op::Mask(MaskOp::VredorVs),
        0x0c00_2057 => Op::Mask(MaskOp::VredxorVs),
        0x1000_2057 => Op::Mask(MaskOp::VredminuVs),
        0x1400_2057 => Op::Mask(MaskOp::VredminVs),
        0x1800_2057 => Op::Mask(MaskOp::VredmaxuVs),
        0x1c00_2057 => Op::Mask(MaskOp::VredmaxVs),
        0x2000_2057 => Op::Fixed(FixedOp::VaadduVv),
        0x2400_2057 => Op::Fixed(FixedOp::VaaddVv),
        0x2800_2057 => Op::Fixed(FixedOp::VasubuVv),
        0x2c00_2057 => Op::Fixed(FixedOp::VasubVv),
        0x8000_2057 => Op::Elem(ElemOp::VdivuVv),
        0x8400_2057 => Op::Elem(ElemOp::VdivVv),
        0x8800_2057 => Op::Elem(ElemOp::VremuVv),
        0x8c00_2057 => Op::Elem(ElemOp::VremVv),
        0x9000_2057 => Op::Elem(ElemOp::VmulhuVv),
        0x9400_2057 => Op::Elem(ElemOp::VmulVv),
        0x9800_2057 => Op::Elem(ElemOp::VmulhsuVv),
        0x9c00_2057 => Op::Elem(ElemOp::VmulhVv),
        0xa400_2057 => Op::Elem(ElemOp::VmaddVv),
        0xac00_2057 => Op::Elem(ElemOp::VnmsubVv),
        0xb400_2057 => Op::Elem(ElemOp::VmaccVv),
        0xbc00_2057 => Op::Elem(ElemOp::VnmsacVv),
        0xc000_2057 => Op::Widen(WidenOp::VwadduVv),
        0xc400_2057 => Op::Widen(WidenOp::VwaddVv),
        0xc800_2057 => Op::Widen(WidenOp::VwsubuVv),
        0xcc00_2057 => Op::Widen(WidenOp::VwsubVv),
        0xd000_2057 => Op::Widen(WidenOp::VwadduWv),
        0xd400_2057 => Op::Widen(WidenOp::VwaddWv),
        0xd800_2057 => Op::Widen(WidenOp::VwsubuWv),
        0xdc00_2057 => Op::Widen(WidenOp::VwsubWv),
        0xe000_2057 => Op::Widen(WidenOp::VwmuluVv),
        0xe800_2057 => Op::Widen(WidenOp::VwmulsuVv),
        0xec00_2057 => Op::Widen(WidenOp::VwmulVv),
        0xf000_2057 => Op::Widen(WidenOp::VwmaccuVv),
        0xf400_2057 => Op::Widen(WidenOp::VwmaccVv),
        0xfc00_2057 => Op::Widen(WidenOp::VwmaccsuVv),
        _ => return None,
    };
    Some(op)
}

/// The rows of OPMVV with a fixed bit 25, by funct6 and that bit.
#[tactic(auto, unfolding(vx_rows::specs::Table::operations))]
fn opmvv_fixed(fixed: u32) -> Option<Op>
    ensures { result ≡ operation_among 0x707f 0x2057 0xfe00707f fixed }
{
    let op = match fixed {
        0x5e00_2057 => Op::Perm(PermOp::VcompressVm),
        0x6200_2057 => Op::Mask(MaskOp::VmandnMm),
        0x6600_2057 => Op::Mask(MaskOp::VmandMm),
        0x6a00_2057 => Op::Mask(MaskOp::VmorMm),
        0x6e00_2057 => Op::Mask(MaskOp::VmxorMm),
        0x7200_2057 => Op::Mask(MaskOp::VmornMm),
        0x7600_2057 => Op::Mask(MaskOp::VmnandMm),
        0x7a00_2057 => Op::Mask(MaskOp::VmnorMm),
        0x7e00_2057 => Op::Mask(MaskOp::VmxnorMm),
        _ => return None,
    };
    Some(op)
}

/// The rows of OPMVV with one source, `vs2`, that may be masked.
#[tactic(auto, unfolding(vx_rows::specs::Table::operations))]
fn opmvv_unary(fixed: u32) -> Option<Op>
    ensures { result ≡ operation_among 0x707f 0x2057 0xfc0ff07f fixed }
{
    let op = match fixed {
        0x4008_2057 => Op::Mask(MaskOp::VcpopM),
        0x4008_a057 => Op::Mask(MaskOp::VfirstM),
        0x4801_2057 => Op::Elem(ElemOp::VzextVf8),
        0x4801_a057 => Op::Elem(ElemOp::VsextVf8),
        0x4802_2057 => Op::Elem(ElemOp::VzextVf4),
        0x4802_a057 => Op::Elem(ElemOp::VsextVf4),
        0x4803_2057 => Op::Elem(ElemOp::VzextVf2),
        0x4803_a057 => Op::Elem(ElemOp::VsextVf2),
        0x5000_a057 => Op::Mask(MaskOp::VmsbfM),
        0x5001_2057 => Op::Mask(MaskOp::VmsofM),
        0x5001_a057 => Op::Mask(MaskOp::VmsifM),
        0x5008_2057 => Op::Mask(MaskOp::ViotaM),
        _ => return None,
    };
    Some(op)
}

/// The row of OPMVV with one source, `vs2`, and no mask.
#[tactic(auto, unfolding(vx_rows::specs::Table::operations))]
fn opmvv_unmasked(fixed: u32) -> Option<Op>
    ensures { result ≡ operation_among 0x707f 0x2057 0xfe0ff07f fixed }
{
    let op = match fixed {
        0x4200_2057 => Op::Mask(MaskOp::VmvXS),
        _ => return None,
    };
    Some(op)
}

/// The row of OPMVV with no source.
#[tactic(auto, unfolding(vx_rows::specs::Table::operations))]
fn opmvv_nullary(fixed: u32) -> Option<Op>
    ensures { result ≡ operation_among 0x707f 0x2057 0xfdfff07f fixed }
{
    let op = match fixed {
        0x5008_a057 => Op::Mask(MaskOp::VidV),
        _ => return None,
    };
    Some(op)
}

/// The rows of OPIVI that may be masked, by funct6.
#[tactic(auto, unfolding(vx_rows::specs::Table::operations))]
fn opivi_masked(fixed: u32) -> Option<Op>
    ensures { result ≡ operation_among 0x707f 0x3057 0xfc00707f fixed }
{
    let op = match fixed {
        0x0000_3057 => Op::Elem(ElemOp::VaddVi),
        0x0c00_3057 => Op::Elem(ElemOp::VrsubVi),
        0x2400_3057 => Op::Elem(ElemOp::VandVi),
        0x2800_3057 => Op::Elem(ElemOp::VorVi),
        0x2c00_3057 => Op::Elem(ElemOp::VxorVi),
        0x3000_3057 => Op::Perm(PermOp::VrgatherVi),
        0x3800_3057 => Op::Perm(PermOp::VslideupVi),
        0x3c00_3057 => Op::Perm(PermOp::VslidedownVi),
        0x6000_3057 => Op::Widen(WidenOp::VmseqVi),
        0x6400_3057 => Op::Widen(WidenOp::VmsneVi),
        0x7000_3057 => Op::Widen(WidenOp::VmsleuVi),
        0x7400_3057 => Op::Widen(WidenOp::VmsleVi),
        0x7800_3057 => Op::Widen(WidenOp::VmsgtuVi),
        0x7c00_3057 => Op::Widen(WidenOp::VmsgtVi),
        0x8000_3057 => Op::Fixed(FixedOp::VsadduVi),
        0x8400_3057 => Op::Fixed(FixedOp::VsaddVi),
        0x9400_3057 => Op::Elem(ElemOp::VsllVi),
        0xa000_3057 => Op::Elem(ElemOp::VsrlVi),
        0xa400_3057 => Op::Elem(ElemOp::VsraVi),
        0xa800_3057 => Op::Fixed(FixedOp::VssrlVi),
        0xac00_3057 => Op::Fixed(FixedOp::VssraVi),
        0xb000_3057 => Op::Widen(WidenOp::VnsrlWi),
        0xb400_3057 => Op::Widen(WidenOp::VnsraWi),
        0xb800_3057 => Op::Fixed(FixedOp::VnclipuWi),
        0xbc00_3057 => Op::Fixed(FixedOp::VnclipWi),
        _ => return None,
    };
    Some(op)
}

/// The rows of OPIVI with a fixed bit 25, by funct6 and that bit.
#[tactic(auto, unfolding(vx_rows::specs::Table::operations))]
fn opivi_fixed(fixed: u32) -> Option<Op>
    ensures { result ≡ operation_among 0x707f 0x3057 0xfe00707f fixed }
{
    let op = match fixed {
        0x4000_3057 => Op::Widen(WidenOp::VadcVim),
        0x4400_3057 => Op::Widen(WidenOp::VmadcVim),
        0x4600_3057 => Op::Widen(WidenOp::VmadcVi),
        0x5c00_3057 => Op::Elem(ElemOp::VmergeVim),
        _ => return None,
    };
    Some(op)
}

/// The rows of OPIVI with one source, in the place of `vs1`.
#[tactic(auto, unfolding(vx_rows::specs::Table::operations))]
fn opivi_move(fixed: u32) -> Option<Op>
    ensures { result ≡ operation_among 0x707f 0x3057 0xfff0707f fixed }
{
    let op = match fixed {
        0x5e00_3057 => Op::Elem(ElemOp::VmvVI),
        _ => return None,
    };
    Some(op)
}

/// The moves of whole registers.
#[tactic(auto, unfolding(vx_rows::specs::Table::operations))]
fn opivi_copy(fixed: u32) -> Option<Op>
    ensures { result ≡ operation_among 0x707f 0x3057 0xfe0ff07f fixed }
{
    let op = match fixed {
        0x9e00_3057 => Op::Elem(ElemOp::Vmv1rV),
        0x9e00_b057 => Op::Elem(ElemOp::Vmv2rV),
        0x9e01_b057 => Op::Elem(ElemOp::Vmv4rV),
        0x9e03_b057 => Op::Elem(ElemOp::Vmv8rV),
        _ => return None,
    };
    Some(op)
}

/// The rows of OPIVX that may be masked, by funct6.
#[tactic(auto, unfolding(vx_rows::specs::Table::operations))]
fn opivx_masked(fixed: u32) -> Option<Op>
    ensures { result ≡ operation_among 0x707f 0x4057 0xfc00707f fixed }
{
    let op = match fixed {
        0x0000_4057 => Op::Elem(ElemOp::VaddVx),
        0x0800_4057 => Op::Elem(ElemOp::VsubVx),
        0x0c00_4057 => Op::Elem(ElemOp::VrsubVx),
        0x1000_4057 => Op::Elem(ElemOp::VminuVx),
        0x1400_4057 => Op::Elem(ElemOp::VminVx),
        0x1800_4057 => Op::Elem(ElemOp::VmaxuVx),
        0x1c00_4057 => Op::Elem(ElemOp::VmaxVx),
        0x2400_4057 => Op::Elem(ElemOp::VandVx),
        0x2800_4057 => Op::Elem(ElemOp::VorVx),
        0x2c00_4057 => Op::Elem(ElemOp::VxorVx),
        0x3000_4057 => Op::Perm(PermOp::VrgatherVx),
        0x3800_4057 => Op::Perm(PermOp::VslideupVx),
        0x3c00_4057 => Op::Perm(PermOp::VslidedownVx),
        0x6000_4057 => Op::Widen(WidenOp::VmseqVx),
        0x6400_4057 => Op::Widen(WidenOp::VmsneVx),
        0x6800_4057 => Op::Widen(WidenOp::VmsltuVx),
        0x6c00_4057 => Op::Widen(WidenOp::VmsltVx),
        0x7000_4057 => Op::Widen(WidenOp::VmsleuVx),
        0x7400_4057 => Op::Widen(WidenOp::VmsleVx),
        0x7800_4057 => Op::Widen(WidenOp::VmsgtuVx),
        0x7c00_4057 => Op::Widen(WidenOp::VmsgtVx),
        0x8000_4057 => Op::Fixed(FixedOp::VsadduVx),
        0x8400_4057 => Op::Fixed(FixedOp::VsaddVx),
        0x8800_4057 => Op::Fixed(FixedOp::VssubuVx),
        0x8c00_4057 => Op::Fixed(FixedOp::VssubVx),
        0x9400_4057 => Op::Elem(ElemOp::VsllVx),
        0x9c00_4057 => Op::Fixed(FixedOp::VsmulVx),
        0xa000_4057 => Op::Elem(ElemOp::VsrlVx),
        0xa400_4057 => Op::Elem(ElemOp::VsraVx),
        0xa800_4057 => Op::Fixed(FixedOp::VssrlVx),
        0xac00_4057 => Op::Fixed(FixedOp::VssraVx),
        0xb000_4057 => Op::Widen(WidenOp::VnsrlWx),
        0xb400_4057 => Op::Widen(WidenOp::VnsraWx),
        0xb800_4057 => Op::Fixed(FixedOp::VnclipuWx),
        0xbc00_4057 => Op::Fixed(FixedOp::VnclipWx),
        _ => return None,
    };
    Some(op)
}

/// The rows of OPIVX with a fixed bit 25, by funct6 and that bit.
#[tactic(auto, unfolding(vx_rows::specs::Table::operations))]
fn opivx_fixed(fixed: u32) -> Option<Op>
    ensures { result ≡ operation_among 0x707f 0x4057 0xfe00707f fixed }
{
    let op = match fixed {
        0x4000_4057 => Op::Widen(WidenOp::VadcVxm),
        0x4400_4057 => Op::Widen(WidenOp::VmadcVxm),
        0x4600_4057 => Op::Widen(WidenOp::VmadcVx),
        0x4800_4057 => Op::Widen(WidenOp::VsbcVxm),
        0x4c00_4057 => Op::Widen(WidenOp::VmsbcVxm),
        0x4e00_4057 => Op::Widen(WidenOp::VmsbcVx),
        0x5c00_4057 => Op::Elem(ElemOp::VmergeVxm),
        _ => return None,
    };
    Some(op)
}

/// The rows of OPIVX with one source, in the place of `vs1`.
#[tactic(auto, unfolding(vx_rows::specs::Table::operations))]
fn opivx_move(fixed: u32) -> Option<Op>
    ensures { result ≡ operation_among 0x707f 0x4057 0xfff0707f fixed }
{
    let op = match fixed {
        0x5e00_4057 => Op::Elem(ElemOp::VmvVX),
        _ => return None,
    };
    Some(op)
}

/// The rows of OPMVX that may be masked, by funct6.
#[tactic(auto, unfolding(vx_rows::specs::Table::operations))]
fn opmvx_masked(fixed: u32) -> Option<Op>
    ensures { result ≡ operation_among 0x707f 0x6057 0xfc00707f fixed }
{
    let op = match fixed {
        0x2000_6057 => Op::Fixed(FixedOp::VaadduVx),
        0x2400_6057 => Op::Fixed(FixedOp::VaaddVx),
        0x2800_6057 => Op::Fixed(FixedOp::VasubuVx),
        0x2c00_6057 => Op::Fixed(FixedOp::VasubVx),
        0x3800_6057 => Op::Perm(PermOp::Vslide1upVx),
        0x3c00_6057 => Op::Perm(PermOp::Vslide1downVx),
        0x8000_6057 => Op::Elem(ElemOp::VdivuVx),
        0x8400_6057 => Op::Elem(ElemOp::VdivVx),
        0x8800_6057 => Op::Elem(ElemOp::VremuVx),
        0x8c00_6057 => Op::Elem(ElemOp::VremVx),
        0x9000_6057 => Op::Elem(ElemOp::VmulhuVx),
        0x9400_6057 => Op::Elem(ElemOp::VmulVx),
        0x9800_6057 => Op::Elem(ElemOp::VmulhsuVx),
        0x9c00_6057 => Op::Elem(ElemOp::VmulhVx),
        0xa400_6057 => Op::Elem(ElemOp::VmaddVx),
        0xac00_6057 => Op::Elem(ElemOp::VnmsubVx),
        0xb400_6057 => Op::Elem(ElemOp::VmaccVx),
        0xbc00_6057 => Op::Elem(ElemOp::VnmsacVx),
        0xc000_6057 => Op::Widen(WidenOp::VwadduVx),
        0xc400_6057 => Op::Widen(WidenOp::VwaddVx),
        0xc800_6057 => Op::Widen(WidenOp::VwsubuVx),
        0xcc00_6057 => Op::Widen(WidenOp::VwsubVx),
        0xd000_6057 => Op::Widen(WidenOp::VwadduWx),
        0xd400_6057 => Op::Widen(WidenOp::VwaddWx),
        0xd800_6057 => Op::Widen(WidenOp::VwsubuWx),
        0xdc00_6057 => Op::Widen(WidenOp::VwsubWx),
        0xe000_6057 => Op::Widen(WidenOp::VwmuluVx),
        0xe800_6057 => Op::Widen(WidenOp::VwmulsuVx),
        0xec00_6057 => Op::Widen(WidenOp::VwmulVx),
        0xf000_6057 => Op::Widen(WidenOp::VwmaccuVx),
        0xf400_6057 => Op::Widen(WidenOp::VwmaccVx),
        0xf800_6057 => Op::Widen(WidenOp::VwmaccusVx),
        0xfc00_6057 => Op::Widen(WidenOp::VwmaccsuVx),
        _ => return None,
    };
    Some(op)
}

/// The rows of OPMVX with one source, in the place of `vs1`.
#[tactic(auto, unfolding(vx_rows::specs::Table::operations))]
fn opmvx_move(fixed: u32) -> Option<Op>
    ensures { result ≡ operation_among 0x707f 0x6057 0xfff0707f fixed }
{
    let op = match fixed {
        0x4200_6057 => Op::Perm(PermOp::VmvSX),
        _ => return None,
    };
    Some(op)
}

/// With vtype in a number of 11 bits.
#[tactic(auto, unfolding(vx_rows::specs::Table::operations))]
fn set_type(fixed: u32) -> Option<Op>
    ensures { result ≡ operation_among 0x707f 0x7057 0x8000707f fixed }
{
    match fixed {
        0x0000_7057 => Some(Op::Set(SetOp::Vsetvli)),
        _ => None,
    }
}

/// With the length in a number of 5 bits.
#[tactic(auto, unfolding(vx_rows::specs::Table::operations))]
fn set_number(fixed: u32) -> Option<Op>
    ensures { result ≡ operation_among 0x707f 0x7057 0xc000707f fixed }
{
    match fixed {
        0xc000_7057 => Some(Op::Set(SetOp::Vsetivli)),
        _ => None,
    }
}

/// With vtype in a register.
#[tactic(auto, unfolding(vx_rows::specs::Table::operations))]
fn set_register(fixed: u32) -> Option<Op>
    ensures { result ≡ operation_among 0x707f 0x7057 0xfe00707f fixed }
{
    match fixed {
        0x8000_7057 => Some(Op::Set(SetOp::Vsetvl)),
        _ => None,
    }
}
