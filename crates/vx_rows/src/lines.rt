//! The rows, one line an operation. Each table hands its lines to a macro, behind an argument where it is given one.
//!
//! A line of vector arithmetic begins with the form of its operands (RISC-V "V" 1.0, sections 10 and 11). The three
//! letters of most forms are the category (`i` for OPI, `m` for OPM) and what stands in the places of `vs2` and `vs1`:
//! `ivv`, `mvv` two registers, `ivx`, `mvx` an integer register in the second, `ivi` a signed number, `ivu` a number
//! without sign. `unary` has a number that selects the operation in the place of `vs1`, `nullary` no source, `copy` a
//! number that tells how many registers are moved, and the moves no `vs2`. Then come funct6, which number selects the
//! operation, whether the row has a mask (`Any`) or else its bit 25 (`Zero`, `One`), the mnemonic and the family.

/// The rows of RV64I, M and Zicsr: fixed bits, shape, class, mnemonic (RISC-V Unprivileged ISA 20191213, chapter 24).
macro_rules! scalar_lines {
    ($then:ident $(, $argument:tt)?) => {
        $then! {
            $($argument;)?
            Lui = scalar(0x37, Upper, Arithmetic, "lui"),
            Auipc = scalar(0x17, Upper, Arithmetic, "auipc"),
            Jal = scalar(0x6f, Jump, Jump, "jal"),
            Jalr = scalar(0x67, Immediate, Jump, "jalr"),
            Beq = scalar(0x63, Branch, Branch, "beq"),
            Bne = scalar(0x1063, Branch, Branch, "bne"),
            Blt = scalar(0x4063, Branch, Branch, "blt"),
            Bge = scalar(0x5063, Branch, Branch, "bge"),
            Bltu = scalar(0x6063, Branch, Branch, "bltu"),
            Bgeu = scalar(0x7063, Branch, Branch, "bgeu"),
            Lb = scalar(0x3, Load, Load, "lb"),
            Lh = scalar(0x1003, Load, Load, "lh"),
            Lw = scalar(0x2003, Load, Load, "lw"),
            Ld = scalar(0x3003, Load, Load, "ld"),
            Lbu = scalar(0x4003, Load, Load, "lbu"),
            Lhu = scalar(0x5003, Load, Load, "lhu"),
            Lwu = scalar(0x6003, Load, Load, "lwu"),
            Sb = scalar(0x23, Store, Store, "sb"),
            Sh = scalar(0x1023, Store, Store, "sh"),
            Sw = scalar(0x2023, Store, Store, "sw"),
            Sd = scalar(0x3023, Store, Store, "sd"),
            Addi = scalar(0x13, Immediate, Arithmetic, "addi"),
            Slti = scalar(0x2013, Immediate, Arithmetic, "slti"),
            Sltiu = scalar(0x3013, Immediate, Arithmetic, "sltiu"),
            Xori = scalar(0x4013, Immediate, Arithmetic, "xori"),
            Ori = scalar(0x6013, Immediate, Arithmetic, "ori"),
            Andi = scalar(0x7013, Immediate, Arithmetic, "andi"),
            Slli = scalar(0x1013, Shift, Arithmetic, "slli"),
            Srli = scalar(0x5013, Shift, Arithmetic, "srli"),
            Srai = scalar(0x4000_5013, Shift, Arithmetic, "srai"),
            Addiw = scalar(0x1b, Immediate, Arithmetic, "addiw"),
            Slliw = scalar(0x101b, ShiftWord, Arithmetic, "slliw"),
            Srliw = scalar(0x501b, ShiftWord, Arithmetic, "srliw"),
            Sraiw = scalar(0x4000_501b, ShiftWord, Arithmetic, "sraiw"),
            Add = scalar(0x33, Registers, Arithmetic, "add"),
            Sub = scalar(0x4000_0033, Registers, Arithmetic, "sub"),
            Sll = scalar(0x1033, Registers, Arithmetic, "sll"),
            Slt = scalar(0x2033, Registers, Arithmetic, "slt"),
            Sltu = scalar(0x3033, Registers, Arithmetic, "sltu"),
            Xor = scalar(0x4033, Registers, Arithmetic, "xor"),
            Srl = scalar(0x5033, Registers, Arithmetic, "srl"),
            Sra = scalar(0x4000_5033, Registers, Arithmetic, "sra"),
            Or = scalar(0x6033, Registers, Arithmetic, "or"),
            And = scalar(0x7033, Registers, Arithmetic, "and"),
            Mul = scalar(0x0200_0033, Registers, Multiply, "mul"),
            Mulh = scalar(0x0200_1033, Registers, Multiply, "mulh"),
            Mulhsu = scalar(0x0200_2033, Registers, Multiply, "mulhsu"),
            Mulhu = scalar(0x0200_3033, Registers, Multiply, "mulhu"),
            Div = scalar(0x0200_4033, Registers, Divide, "div"),
            Divu = scalar(0x0200_5033, Registers, Divide, "divu"),
            Rem = scalar(0x0200_6033, Registers, Divide, "rem"),
            Remu = scalar(0x0200_7033, Registers, Divide, "remu"),
            Addw = scalar(0x3b, Registers, Arithmetic, "addw"),
            Subw = scalar(0x4000_003b, Registers, Arithmetic, "subw"),
            Sllw = scalar(0x103b, Registers, Arithmetic, "sllw"),
            Srlw = scalar(0x503b, Registers, Arithmetic, "srlw"),
            Sraw = scalar(0x4000_503b, Registers, Arithmetic, "sraw"),
            Mulw = scalar(0x0200_003b, Registers, Multiply, "mulw"),
            Divw = scalar(0x0200_403b, Registers, Divide, "divw"),
            Divuw = scalar(0x0200_503b, Registers, Divide, "divuw"),
            Remw = scalar(0x0200_603b, Registers, Divide, "remw"),
            Remuw = scalar(0x0200_703b, Registers, Divide, "remuw"),
            Fence = scalar(0xf, Fence, Fence, "fence"),
            Ecall = scalar(0x73, Fixed, Ecall, "ecall"),
            Ebreak = scalar(0x0010_0073, Fixed, Ebreak, "ebreak"),
            Csrrw = scalar(0x1073, Csr, Csr, "csrrw"),
            Csrrs = scalar(0x2073, Csr, Csr, "csrrs"),
            Csrrc = scalar(0x3073, Csr, Csr, "csrrc"),
            Csrrwi = scalar(0x5073, CsrNumber, Csr, "csrrwi"),
            Csrrsi = scalar(0x6073, CsrNumber, Csr, "csrrsi"),
            Csrrci = scalar(0x7073, CsrNumber, Csr, "csrrci"),
        }
    };
}

/// The rows that configure the vector unit: fixed bits, shape, mnemonic (RISC-V "V" 1.0, section 6).
macro_rules! set_lines {
    ($then:ident $(, $argument:tt)?) => {
        $then! {
            $($argument;)?
            Vsetvli = set(0x7057, SetType, "vsetvli"),
            Vsetivli = set(0xc000_7057, SetNumber, "vsetivli"),
            Vsetvl = set(0x8000_7057, SetRegister, "vsetvl"),
        }
    };
}

/// Vector arithmetic at a single width.
macro_rules! elem_lines {
    ($then:ident $(, $argument:tt)?) => {
        $then! {
            $($argument;)?
            VaddVv = ivv(0b000000, Any, "vadd.vv", Vadd),
            VaddVx = ivx(0b000000, Any, "vadd.vx", Vadd),
            VaddVi = ivi(0b000000, Any, "vadd.vi", Vadd),
            VsubVv = ivv(0b000010, Any, "vsub.vv", Vsub),
            VsubVx = ivx(0b000010, Any, "vsub.vx", Vsub),
            VrsubVx = ivx(0b000011, Any, "vrsub.vx", Vrsub),
            VrsubVi = ivi(0b000011, Any, "vrsub.vi", Vrsub),
            VminuVv = ivv(0b000100, Any, "vminu.vv", Vminu),
            VminuVx = ivx(0b000100, Any, "vminu.vx", Vminu),
            VminVv = ivv(0b000101, Any, "vmin.vv", Vmin),
            VminVx = ivx(0b000101, Any, "vmin.vx", Vmin),
            VmaxuVv = ivv(0b000110, Any, "vmaxu.vv", Vmaxu),
            VmaxuVx = ivx(0b000110, Any, "vmaxu.vx", Vmaxu),
            VmaxVv = ivv(0b000111, Any, "vmax.vv", Vmax),
            VmaxVx = ivx(0b000111, Any, "vmax.vx", Vmax),
            VandVv = ivv(0b001001, Any, "vand.vv", Vand),
            VandVx = ivx(0b001001, Any, "vand.vx", Vand),
            VandVi = ivi(0b001001, Any, "vand.vi", Vand),
            VorVv = ivv(0b001010, Any, "vor.vv", Vor),
            VorVx = ivx(0b001010, Any, "vor.vx", Vor),
            VorVi = ivi(0b001010, Any, "vor.vi", Vor),
            VxorVv = ivv(0b001011, Any, "vxor.vv", Vxor),
            VxorVx = ivx(0b001011, Any, "vxor.vx", Vxor),
            VxorVi = ivi(0b001011, Any, "vxor.vi", Vxor),
            VmergeVvm = ivv(0b010111, Zero, "vmerge.vvm", Vmerge),
            VmergeVxm = ivx(0b010111, Zero, "vmerge.vxm", Vmerge),
            VmergeVim = ivi(0b010111, Zero, "vmerge.vim", Vmerge),
            VmvVV = move_v(0b010111, "vmv.v.v", VmvV),
            VmvVX = move_x(0b010111, "vmv.v.x", VmvV),
            VmvVI = move_i(0b010111, "vmv.v.i", VmvV),
            VsllVv = ivv(0b100101, Any, "vsll.vv", Vsll),
            VsllVx = ivx(0b100101, Any, "vsll.vx", Vsll),
            VsllVi = ivu(0b100101, Any, "vsll.vi", Vsll),
            VsrlVv = ivv(0b101000, Any, "vsrl.vv", Vsrl),
            VsrlVx = ivx(0b101000, Any, "vsrl.vx", Vsrl),
            VsrlVi = ivu(0b101000, Any, "vsrl.vi", Vsrl),
            VsraVv = ivv(0b101001, Any, "vsra.vv", Vsra),
            VsraVx = ivx(0b101001, Any, "vsra.vx", Vsra),
            VsraVi = ivu(0b101001, Any, "vsra.vi", Vsra),
            Vmv1rV = copy(0, "vmv1r.v", Vmv1r),
            Vmv2rV = copy(1, "vmv2r.v", Vmv2r),
            Vmv4rV = copy(3, "vmv4r.v", Vmv4r),
            Vmv8rV = copy(7, "vmv8r.v", Vmv8r),
            VzextVf8 = unary(0b010010, 2, Any, "vzext.vf8", VzextVf8),
            VsextVf8 = unary(0b010010, 3, Any, "vsext.vf8", VsextVf8),
            VzextVf4 = unary(0b010010, 4, Any, "vzext.vf4", VzextVf4),
            VsextVf4 = unary(0b010010, 5, Any, "vsext.vf4", VsextVf4),
            VzextVf2 = unary(0b010010, 6, Any, "vzext.vf2", VzextVf2),
            VsextVf2 = unary(0b010010, 7, Any, "vsext.vf2", VsextVf2),
            VdivuVv = mvv(0b100000, Any, "vdivu.vv", Vdivu),
            VdivuVx = mvx(0b100000, Any, "vdivu.vx", Vdivu),
            VdivVv = mvv(0b100001, Any, "vdiv.vv", Vdiv),
            VdivVx = mvx(0b100001, Any, "vdiv.vx", Vdiv),
            VremuVv = mvv(0b100010, Any, "vremu.vv", Vremu),
            VremuVx = mvx(0b100010, Any, "vremu.vx", Vremu),
            VremVv = mvv(0b100011, Any, "vrem.vv", Vrem),
            VremVx = mvx(0b100011, Any, "vrem.vx", Vrem),
            VmulhuVv = mvv(0b100100, Any, "vmulhu.vv", Vmulhu),
            VmulhuVx = mvx(0b100100, Any, "vmulhu.vx", Vmulhu),
            VmulVv = mvv(0b100101, Any, "vmul.vv", Vmul),
            VmulVx = mvx(0b100101, Any, "vmul.vx", Vmul),
            VmulhsuVv = mvv(0b100110, Any, "vmulhsu.vv", Vmulhsu),
            VmulhsuVx = mvx(0b100110, Any, "vmulhsu.vx", Vmulhsu),
            VmulhVv = mvv(0b100111, Any, "vmulh.vv", Vmulh),
            VmulhVx = mvx(0b100111, Any, "vmulh.vx", Vmulh),
            VmaddVv = mvv(0b101001, Any, "vmadd.vv", Vmadd),
            VmaddVx = mvx(0b101001, Any, "vmadd.vx", Vmadd),
            VnmsubVv = mvv(0b101011, Any, "vnmsub.vv", Vnmsub),
            VnmsubVx = mvx(0b101011, Any, "vnmsub.vx", Vnmsub),
            VmaccVv = mvv(0b101101, Any, "vmacc.vv", Vmacc),
            VmaccVx = mvx(0b101101, Any, "vmacc.vx", Vmacc),
            VnmsacVv = mvv(0b101111, Any, "vnmsac.vv", Vnmsac),
            VnmsacVx = mvx(0b101111, Any, "vnmsac.vx", Vnmsac),
        }
    };
}

/// Vector arithmetic that widens, narrows, carries or compares.
macro_rules! widen_lines {
    ($then:ident $(, $argument:tt)?) => {
        $then! {
            $($argument;)?
            VadcVvm = ivv(0b010000, Zero, "vadc.vvm", Vadc),
            VadcVxm = ivx(0b010000, Zero, "vadc.vxm", Vadc),
            VadcVim = ivi(0b010000, Zero, "vadc.vim", Vadc),
            VmadcVvm = ivv(0b010001, Zero, "vmadc.vvm", Vmadc),
            VmadcVxm = ivx(0b010001, Zero, "vmadc.vxm", Vmadc),
            VmadcVim = ivi(0b010001, Zero, "vmadc.vim", Vmadc),
            VmadcVv = ivv(0b010001, One, "vmadc.vv", Vmadc),
            VmadcVx = ivx(0b010001, One, "vmadc.vx", Vmadc),
            VmadcVi = ivi(0b010001, One, "vmadc.vi", Vmadc),
            VsbcVvm = ivv(0b010010, Zero, "vsbc.vvm", Vsbc),
            VsbcVxm = ivx(0b010010, Zero, "vsbc.vxm", Vsbc),
            VmsbcVvm = ivv(0b010011, Zero, "vmsbc.vvm", Vmsbc),
            VmsbcVxm = ivx(0b010011, Zero, "vmsbc.vxm", Vmsbc),
            VmsbcVv = ivv(0b010011, One, "vmsbc.vv", Vmsbc),
            VmsbcVx = ivx(0b010011, One, "vmsbc.vx", Vmsbc),
            VmseqVv = ivv(0b011000, Any, "vmseq.vv", Vmseq),
            VmseqVx = ivx(0b011000, Any, "vmseq.vx", Vmseq),
            VmseqVi = ivi(0b011000, Any, "vmseq.vi", Vmseq),
            VmsneVv = ivv(0b011001, Any, "vmsne.vv", Vmsne),
            VmsneVx = ivx(0b011001, Any, "vmsne.vx", Vmsne),
            VmsneVi = ivi(0b011001, Any, "vmsne.vi", Vmsne),
            VmsltuVv = ivv(0b011010, Any, "vmsltu.vv", Vmsltu),
            VmsltuVx = ivx(0b011010, Any, "vmsltu.vx", Vmsltu),
            VmsltVv = ivv(0b011011, Any, "vmslt.vv", Vmslt),
            VmsltVx = ivx(0b011011, Any, "vmslt.vx", Vmslt),
            VmsleuVv = ivv(0b011100, Any, "vmsleu.vv", Vmsleu),
            VmsleuVx = ivx(0b011100, Any, "vmsleu.vx", Vmsleu),
            VmsleuVi = ivi(0b011100, Any, "vmsleu.vi", Vmsleu),
            VmsleVv = ivv(0b011101, Any, "vmsle.vv", Vmsle),
            VmsleVx = ivx(0b011101, Any, "vmsle.vx", Vmsle),
            VmsleVi = ivi(0b011101, Any, "vmsle.vi", Vmsle),
            VmsgtuVx = ivx(0b011110, Any, "vmsgtu.vx", Vmsgtu),
            VmsgtuVi = ivi(0b011110, Any, "vmsgtu.vi", Vmsgtu),
            VmsgtVx = ivx(0b011111, Any, "vmsgt.vx", Vmsgt),
            VmsgtVi = ivi(0b011111, Any, "vmsgt.vi", Vmsgt),
            VnsrlWv = ivv(0b101100, Any, "vnsrl.wv", Vnsrl),
            VnsrlWx = ivx(0b101100, Any, "vnsrl.wx", Vnsrl),
            VnsrlWi = ivu(0b101100, Any, "vnsrl.wi", Vnsrl),
            VnsraWv = ivv(0b101101, Any, "vnsra.wv", Vnsra),
            VnsraWx = ivx(0b101101, Any, "vnsra.wx", Vnsra),
            VnsraWi = ivu(0b101101, Any, "vnsra.wi", Vnsra),
            VwadduVv = mvv(0b110000, Any, "vwaddu.vv", Vwaddu),
            VwadduVx = mvx(0b110000, Any, "vwaddu.vx", Vwaddu),
            VwaddVv = mvv(0b110001, Any, "vwadd.vv", Vwadd),
            VwaddVx = mvx(0b110001, Any, "vwadd.vx", Vwadd),
            VwsubuVv = mvv(0b110010, Any, "vwsubu.vv", Vwsubu),
            VwsubuVx = mvx(0b110010, Any, "vwsubu.vx", Vwsubu),
            VwsubVv = mvv(0b110011, Any, "vwsub.vv", Vwsub),
            VwsubVx = mvx(0b110011, Any, "vwsub.vx", Vwsub),
            VwadduWv = mvv(0b110100, Any, "vwaddu.wv", VwadduW),
            VwadduWx = mvx(0b110100, Any, "vwaddu.wx", VwadduW),
            VwaddWv = mvv(0b110101, Any, "vwadd.wv", VwaddW),
            VwaddWx = mvx(0b110101, Any, "vwadd.wx", VwaddW),
            VwsubuWv = mvv(0b110110, Any, "vwsubu.wv", VwsubuW),
            VwsubuWx = mvx(0b110110, Any, "vwsubu.wx", VwsubuW),
            VwsubWv = mvv(0b110111, Any, "vwsub.wv", VwsubW),
            VwsubWx = mvx(0b110111, Any, "vwsub.wx", VwsubW),
            VwmuluVv = mvv(0b111000, Any, "vwmulu.vv", Vwmulu),
            VwmuluVx = mvx(0b111000, Any, "vwmulu.vx", Vwmulu),
            VwmulsuVv = mvv(0b111010, Any, "vwmulsu.vv", Vwmulsu),
            VwmulsuVx = mvx(0b111010, Any, "vwmulsu.vx", Vwmulsu),
            VwmulVv = mvv(0b111011, Any, "vwmul.vv", Vwmul),
            VwmulVx = mvx(0b111011, Any, "vwmul.vx", Vwmul),
            VwmaccuVv = mvv(0b111100, Any, "vwmaccu.vv", Vwmaccu),
            VwmaccuVx = mvx(0b111100, Any, "vwmaccu.vx", Vwmaccu),
            VwmaccVv = mvv(0b111101, Any, "vwmacc.vv", Vwmacc),
            VwmaccVx = mvx(0b111101, Any, "vwmacc.vx", Vwmacc),
            VwmaccusVx = mvx(0b111110, Any, "vwmaccus.vx", Vwmaccus),
            VwmaccsuVv = mvv(0b111111, Any, "vwmaccsu.vv", Vwmaccsu),
            VwmaccsuVx = mvx(0b111111, Any, "vwmaccsu.vx", Vwmaccsu),
        }
    };
}

/// Vector arithmetic with a fixed point.
macro_rules! fixed_lines {
    ($then:ident $(, $argument:tt)?) => {
        $then! {
            $($argument;)?
            VsadduVv = ivv(0b100000, Any, "vsaddu.vv", Vsaddu),
            VsadduVx = ivx(0b100000, Any, "vsaddu.vx", Vsaddu),
            VsadduVi = ivi(0b100000, Any, "vsaddu.vi", Vsaddu),
            VsaddVv = ivv(0b100001, Any, "vsadd.vv", Vsadd),
            VsaddVx = ivx(0b100001, Any, "vsadd.vx", Vsadd),
            VsaddVi = ivi(0b100001, Any, "vsadd.vi", Vsadd),
            VssubuVv = ivv(0b100010, Any, "vssubu.vv", Vssubu),
            VssubuVx = ivx(0b100010, Any, "vssubu.vx", Vssubu),
            VssubVv = ivv(0b100011, Any, "vssub.vv", Vssub),
            VssubVx = ivx(0b100011, Any, "vssub.vx", Vssub),
            VsmulVv = ivv(0b100111, Any, "vsmul.vv", Vsmul),
            VsmulVx = ivx(0b100111, Any, "vsmul.vx", Vsmul),
            VssrlVv = ivv(0b101010, Any, "vssrl.vv", Vssrl),
            VssrlVx = ivx(0b101010, Any, "vssrl.vx", Vssrl),
            VssrlVi = ivu(0b101010, Any, "vssrl.vi", Vssrl),
            VssraVv = ivv(0b101011, Any, "vssra.vv", Vssra),
            VssraVx = ivx(0b101011, Any, "vssra.vx", Vssra),
            VssraVi = ivu(0b101011, Any, "vssra.vi", Vssra),
            VnclipuWv = ivv(0b101110, Any, "vnclipu.wv", Vnclipu),
            VnclipuWx = ivx(0b101110, Any, "vnclipu.wx", Vnclipu),
            VnclipuWi = ivu(0b101110, Any, "vnclipu.wi", Vnclipu),
            VnclipWv = ivv(0b101111, Any, "vnclip.wv", Vnclip),
            VnclipWx = ivx(0b101111, Any, "vnclip.wx", Vnclip),
            VnclipWi = ivu(0b101111, Any, "vnclip.wi", Vnclip),
            VaadduVv = mvv(0b001000, Any, "vaaddu.vv", Vaaddu),
            VaadduVx = mvx(0b001000, Any, "vaaddu.vx", Vaaddu),
            VaaddVv = mvv(0b001001, Any, "vaadd.vv", Vaadd),
            VaaddVx = mvx(0b001001, Any, "vaadd.vx", Vaadd),
            VasubuVv = mvv(0b001010, Any, "vasubu.vv", Vasubu),
            VasubuVx = mvx(0b001010, Any, "vasubu.vx", Vasubu),
            VasubVv = mvv(0b001011, Any, "vasub.vv", Vasub),
            VasubVx = mvx(0b001011, Any, "vasub.vx", Vasub),
        }
    };
}

/// Reductions and masks.
macro_rules! mask_lines {
    ($then:ident $(, $argument:tt)?) => {
        $then! {
            $($argument;)?
            VredsumVs = mvv(0b000000, Any, "vredsum.vs", Vredsum),
            VredandVs = mvv(0b000001, Any, "vredand.vs", Vredand),
            VredorVs = mvv(0b000010, Any, "vredor.vs", Vredor),
            VredxorVs = mvv(0b000011, Any, "vredxor.vs", Vredxor),
            VredminuVs = mvv(0b000100, Any, "vredminu.vs", Vredminu),
            VredminVs = mvv(0b000101, Any, "vredmin.vs", Vredmin),
            VredmaxuVs = mvv(0b000110, Any, "vredmaxu.vs", Vredmaxu),
            VredmaxVs = mvv(0b000111, Any, "vredmax.vs", Vredmax),
            VwredsumuVs = ivv(0b110000, Any, "vwredsumu.vs", Vwredsumu),
            VwredsumVs = ivv(0b110001, Any, "vwredsum.vs", Vwredsum),
            VmvXS = unary(0b010000, 0, One, "vmv.x.s", VmvXS),
            VcpopM = unary(0b010000, 16, Any, "vcpop.m", Vcpop),
            VfirstM = unary(0b010000, 17, Any, "vfirst.m", Vfirst),
            VmsbfM = unary(0b010100, 1, Any, "vmsbf.m", Vmsbf),
            VmsofM = unary(0b010100, 2, Any, "vmsof.m", Vmsof),
            VmsifM = unary(0b010100, 3, Any, "vmsif.m", Vmsif),
            ViotaM = unary(0b010100, 16, Any, "viota.m", Viota),
            VidV = nullary(0b010100, 17, "vid.v", Vid),
            VmandnMm = mvv(0b011000, One, "vmandn.mm", Vmandn),
            VmandMm = mvv(0b011001, One, "vmand.mm", Vmand),
            VmorMm = mvv(0b011010, One, "vmor.mm", Vmor),
            VmxorMm = mvv(0b011011, One, "vmxor.mm", Vmxor),
            VmornMm = mvv(0b011100, One, "vmorn.mm", Vmorn),
            VmnandMm = mvv(0b011101, One, "vmnand.mm", Vmnand),
            VmnorMm = mvv(0b011110, One, "vmnor.mm", Vmnor),
            VmxnorMm = mvv(0b011111, One, "vmxnor.mm", Vmxnor),
        }
    };
}

/// Permutations.
macro_rules! perm_lines {
    ($then:ident $(, $argument:tt)?) => {
        $then! {
            $($argument;)?
            VrgatherVv = ivv(0b001100, Any, "vrgather.vv", Vrgather),
            VrgatherVx = ivx(0b001100, Any, "vrgather.vx", Vrgather),
            VrgatherVi = ivu(0b001100, Any, "vrgather.vi", Vrgather),
            Vrgatherei16Vv = ivv(0b001110, Any, "vrgatherei16.vv", Vrgatherei16),
            VslideupVx = ivx(0b001110, Any, "vslideup.vx", Vslideup),
            VslideupVi = ivu(0b001110, Any, "vslideup.vi", Vslideup),
            VslidedownVx = ivx(0b001111, Any, "vslidedown.vx", Vslidedown),
            VslidedownVi = ivu(0b001111, Any, "vslidedown.vi", Vslidedown),
            Vslide1upVx = mvx(0b001110, Any, "vslide1up.vx", Vslide1up),
            Vslide1downVx = mvx(0b001111, Any, "vslide1down.vx", Vslide1down),
            VmvSX = move_s(0b010000, "vmv.s.x", VmvSX),
            VcompressVm = mvv(0b010111, One, "vcompress.vm", Vcompress),
        }
    };
}

/// Vector loads and stores with any number of fields, and those of masks: direction, addressing, encoded width, and the
/// mnemonic before and behind its number of fields (RISC-V "V" 1.0, section 7).
macro_rules! memory_lines {
    ($then:ident $(, $argument:tt)?) => {
        $then! {
            $($argument;)?
            Vle8 = segments(Load, Unit, E8, "vl", "e8.v"),
            Vle16 = segments(Load, Unit, E16, "vl", "e16.v"),
            Vle32 = segments(Load, Unit, E32, "vl", "e32.v"),
            Vle64 = segments(Load, Unit, E64, "vl", "e64.v"),
            Vse8 = segments(Store, Unit, E8, "vs", "e8.v"),
            Vse16 = segments(Store, Unit, E16, "vs", "e16.v"),
            Vse32 = segments(Store, Unit, E32, "vs", "e32.v"),
            Vse64 = segments(Store, Unit, E64, "vs", "e64.v"),
            Vlm = plain(Load, MaskBits, E8, "vl", "m.v"),
            Vsm = plain(Store, MaskBits, E8, "vs", "m.v"),
            Vle8ff = segments(Load, FaultOnlyFirst, E8, "vl", "e8ff.v"),
            Vle16ff = segments(Load, FaultOnlyFirst, E16, "vl", "e16ff.v"),
            Vle32ff = segments(Load, FaultOnlyFirst, E32, "vl", "e32ff.v"),
            Vle64ff = segments(Load, FaultOnlyFirst, E64, "vl", "e64ff.v"),
            Vluxei8 = segments(Load, Unordered, E8, "vlux", "ei8.v"),
            Vluxei16 = segments(Load, Unordered, E16, "vlux", "ei16.v"),
            Vluxei32 = segments(Load, Unordered, E32, "vlux", "ei32.v"),
            Vluxei64 = segments(Load, Unordered, E64, "vlux", "ei64.v"),
            Vsuxei8 = segments(Store, Unordered, E8, "vsux", "ei8.v"),
            Vsuxei16 = segments(Store, Unordered, E16, "vsux", "ei16.v"),
            Vsuxei32 = segments(Store, Unordered, E32, "vsux", "ei32.v"),
            Vsuxei64 = segments(Store, Unordered, E64, "vsux", "ei64.v"),
            Vlse8 = segments(Load, Strided, E8, "vls", "e8.v"),
            Vlse16 = segments(Load, Strided, E16, "vls", "e16.v"),
            Vlse32 = segments(Load, Strided, E32, "vls", "e32.v"),
            Vlse64 = segments(Load, Strided, E64, "vls", "e64.v"),
            Vsse8 = segments(Store, Strided, E8, "vss", "e8.v"),
            Vsse16 = segments(Store, Strided, E16, "vss", "e16.v"),
            Vsse32 = segments(Store, Strided, E32, "vss", "e32.v"),
            Vsse64 = segments(Store, Strided, E64, "vss", "e64.v"),
            Vloxei8 = segments(Load, Ordered, E8, "vlox", "ei8.v"),
            Vloxei16 = segments(Load, Ordered, E16, "vlox", "ei16.v"),
            Vloxei32 = segments(Load, Ordered, E32, "vlox", "ei32.v"),
            Vloxei64 = segments(Load, Ordered, E64, "vlox", "ei64.v"),
            Vsoxei8 = segments(Store, Ordered, E8, "vsox", "ei8.v"),
            Vsoxei16 = segments(Store, Ordered, E16, "vsox", "ei16.v"),
            Vsoxei32 = segments(Store, Ordered, E32, "vsox", "ei32.v"),
            Vsoxei64 = segments(Store, Ordered, E64, "vsox", "ei64.v"),
        }
    };
}

/// Loads and stores of whole registers, a row each for 1, 2, 4 and 8 of them: direction, encoded width, and the mnemonic
/// before and behind its number of registers (RISC-V "V" 1.0, section 7.9).
macro_rules! whole_lines {
    ($then:ident $(, $argument:tt)?) => {
        $then! {
            $($argument;)?
            Vlre8 = whole(Load, E8, "vl", "re8.v"),
            Vlre16 = whole(Load, E16, "vl", "re16.v"),
            Vlre32 = whole(Load, E32, "vl", "re32.v"),
            Vlre64 = whole(Load, E64, "vl", "re64.v"),
            Vsr = whole(Store, E8, "vs", "r.v"),
        }
    };
}

pub(crate) use elem_lines;
pub(crate) use fixed_lines;
pub(crate) use mask_lines;
pub(crate) use memory_lines;
pub(crate) use perm_lines;
pub(crate) use scalar_lines;
pub(crate) use set_lines;
pub(crate) use whole_lines;
pub(crate) use widen_lines;
