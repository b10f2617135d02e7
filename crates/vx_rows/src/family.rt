ghost use Rattle.std.specs.Prelude.{◌≡◌};
ghost use Rattle.vx_rows.specs.Families.{family_line, unit_of, operands_of};

use std::fmt;

/// What a vector arithmetic row computes, apart from the form of its operands: `vadd.vv`, `vadd.vx` and `vadd.vi` are one
/// family (RISC-V "V" 1.0, sections 11 to 16).
#[derive(Clone, Copy, PartialEq, Eq)]
pub enum Family {
    Vadd,
    Vsub,
    Vrsub,
    Vminu,
    Vmin,
    Vmaxu,
    Vmax,
    Vand,
    Vor,
    Vxor,
    Vmerge,
    VmvV,
    Vsll,
    Vsrl,
    Vsra,
    Vmv1r,
    Vmv2r,
    Vmv4r,
    Vmv8r,
    VzextVf8,
    VsextVf8,
    VzextVf4,
    VsextVf4,
    VzextVf2,
    VsextVf2,
    Vdivu,
    Vdiv,
    Vremu,
    Vrem,
    Vmulhu,
    Vmul,
    Vmulhsu,
    Vmulh,
    Vmadd,
    Vnmsub,
    Vmacc,
    Vnmsac,
    Vadc,
    Vmadc,
    Vsbc,
    Vmsbc,
    Vmseq,
    Vmsne,
    Vmsltu,
    Vmslt,
    Vmsleu,
    Vmsle,
    Vmsgtu,
    Vmsgt,
    Vnsrl,
    Vnsra,
    Vwaddu,
    Vwadd,
    Vwsubu,
    Vwsub,
    VwadduW,
    VwaddW,
    VwsubuW,
    VwsubW,
    Vwmulu,
    Vwmulsu,
    Vwmul,
    Vwmaccu,
    Vwmacc,
    Vwmaccus,
    Vwmaccsu,
    Vsaddu,
    Vsadd,
    Vssubu,
    Vssub,
    Vsmul,
    Vssrl,
    Vssra,
    Vnclipu,
    Vnclip,
    Vaaddu,
    Vaadd,
    Vasubu,
    Vasub,
    Vredsum,
    Vredand,
    Vredor,
    Vredxor,
    Vredminu,
    Vredmin,
    Vredmaxu,
    Vredmax,
    Vwredsumu,
    Vwredsum,
    VmvXS,
    Vcpop,
    Vfirst,
    Vmsbf,
    Vmsof,
    Vmsif,
    Viota,
    Vid,
    Vmandn,
    Vmand,
    Vmor,
    Vmxor,
    Vmorn,
    Vmnand,
    Vmnor,
    Vmxnor,
    Vrgather,
    Vrgatherei16,
    Vslideup,
    Vslidedown,
    Vslide1up,
    Vslide1down,
    VmvSX,
    Vcompress,
}

/// The unit that executes an instruction of vector arithmetic. This project's own.
#[derive(Clone, Copy, PartialEq, Eq, Debug)]
pub enum Unit {
    Arithmetic,
    Multiply,
    Divide,
    Permute,
}

/// What a row's operand is as a group of vector registers, where SEW and LMUL are those of the configuration.
#[derive(Clone, Copy, PartialEq, Eq, Debug)]
pub enum Operand {
    /// No vector register.
    Absent,
    /// Elements of SEW.
    Single,
    /// Elements of 2 SEW.
    Double,
    /// Elements of SEW / 2.
    Half,
    /// Elements of SEW / 4.
    Quarter,
    /// Elements of SEW / 8.
    Eighth,
    /// Elements of 16 bits.
    Sixteen,
    /// A mask: one register, with a bit for each element.
    Mask,
    /// The first element of one register, of SEW.
    Element,
    /// The first element of one register, of 2 SEW.
    WideElement,
    /// So many whole registers.
    Whole1,
    Whole2,
    Whole4,
    Whole8,
}

/// The vector operands of a family: the destination, and those that stand in the places of `vs2` and `vs1`, where the
/// row's form has registers there.
#[derive(Clone, Copy, PartialEq, Eq, Debug)]
pub struct Operands {
    pub destination: Operand,
    pub vs2: Operand,
    pub vs1: Operand,
}

/// The families, one line each: the unit, and the operands.
macro_rules! families {
    ($then:ident) => {
        $then! {
            Vadd = Arithmetic, Single, Single, Single;
            Vsub = Arithmetic, Single, Single, Single;
            Vrsub = Arithmetic, Single, Single, Single;
            Vminu = Arithmetic, Single, Single, Single;
            Vmin = Arithmetic, Single, Single, Single;
            Vmaxu = Arithmetic, Single, Single, Single;
            Vmax = Arithmetic, Single, Single, Single;
            Vand = Arithmetic, Single, Single, Single;
            Vor = Arithmetic, Single, Single, Single;
            Vxor = Arithmetic, Single, Single, Single;
            Vmerge = Arithmetic, Single, Single, Single;
            VmvV = Arithmetic, Single, Absent, Single;
            Vsll = Arithmetic, Single, Single, Single;
            Vsrl = Arithmetic, Single, Single, Single;
            Vsra = Arithmetic, Single, Single, Single;
            Vmv1r = Arithmetic, Whole1, Whole1, Absent;
            Vmv2r = Arithmetic, Whole2, Whole2, Absent;
            Vmv4r = Arithmetic, Whole4, Whole4, Absent;
            Vmv8r = Arithmetic, Whole8, Whole8, Absent;
            VzextVf8 = Arithmetic, Single, Eighth, Absent;
            VsextVf8 = Arithmetic, Single, Eighth, Absent;
            VzextVf4 = Arithmetic, Single, Quarter, Absent;
            VsextVf4 = Arithmetic, Single, Quarter, Absent;
            VzextVf2 = Arithmetic, Single, Half, Absent;
            VsextVf2 = Arithmetic, Single, Half, Absent;
            Vdivu = Divide, Single, Single, Single;
            Vdiv = Divide, Single, Single, Single;
            Vremu = Divide, Single, Single, Single;
            Vrem = Divide, Single, Single, Single;
            Vmulhu = Multiply, Single, Single, Single;
            Vmul = Multiply, Single, Single, Single;
            Vmulhsu = Multiply, Single, Single, Single;
            Vmulh = Multiply, Single, Single, Single;
            Vmadd = Multiply, Single, Single, Single;
            Vnmsub = Multiply, Single, Single, Single;
            Vmacc = Multiply, Single, Single, Single;
            Vnmsac = Multiply, Single, Single, Single;
            Vadc = Arithmetic, Single, Single, Single;
            Vmadc = Arithmetic, Mask, Single, Single;
            Vsbc = Arithmetic, Single, Single, Single;
            Vmsbc = Arithmetic, Mask, Single, Single;
            Vmseq = Arithmetic, Mask, Single, Single;
            Vmsne = Arithmetic, Mask, Single, Single;
            Vmsltu = Arithmetic, Mask, Single, Single;
            Vmslt = Arithmetic, Mask, Single, Single;
            Vmsleu = Arithmetic, Mask, Single, Single;
            Vmsle = Arithmetic, Mask, Single, Single;
            Vmsgtu = Arithmetic, Mask, Single, Single;
            Vmsgt = Arithmetic, Mask, Single, Single;
            Vnsrl = Arithmetic, Single, Double, Single;
            Vnsra = Arithmetic, Single, Double, Single;
            Vwaddu = Arithmetic, Double, Single, Single;
            Vwadd = Arithmetic, Double, Single, Single;
            Vwsubu = Arithmetic, Double, Single, Single;
            Vwsub = Arithmetic, Double, Single, Single;
            VwadduW = Arithmetic, Double, Double, Single;
            VwaddW = Arithmetic, Double, Double, Single;
            VwsubuW = Arithmetic, Double, Double, Single;
            VwsubW = Arithmetic, Double, Double, Single;
            Vwmulu = Multiply, Double, Single, Single;
            Vwmulsu = Multiply, Double, Single, Single;
            Vwmul = Multiply, Double, Single, Single;
            Vwmaccu = Multiply, Double, Single, Single;
            Vwmacc = Multiply, Double, Single, Single;
            Vwmaccus = Multiply, Double, Single, Single;
            Vwmaccsu = Multiply, Double, Single, Single;
            Vsaddu = Arithmetic, Single, Single, Single;
            Vsadd = Arithmetic, Single, Single, Single;
            Vssubu = Arithmetic, Single, Single, Single;
            Vssub = Arithmetic, Single, Single, Single;
            Vsmul = Multiply, Single, Single, Single;
            Vssrl = Arithmetic, Single, Single, Single;
            Vssra = Arithmetic, Single, Single, Single;
            Vnclipu = Arithmetic, Single, Double, Single;
            Vnclip = Arithmetic, Single, Double, Single;
            Vaaddu = Arithmetic, Single, Single, Single;
            Vaadd = Arithmetic, Single, Single, Single;
            Vasubu = Arithmetic, Single, Single, Single;
            Vasub = Arithmetic, Single, Single, Single;
            Vredsum = Permute, Element, Single, Element;
            Vredand = Permute, Element, Single, Element;
            Vredor = Permute, Element, Single, Element;
            Vredxor = Permute, Element, Single, Element;
            Vredminu = Permute, Element, Single, Element;
            Vredmin = Permute, Element, Single, Element;
            Vredmaxu = Permute, Element, Single, Element;
            Vredmax = Permute, Element, Single, Element;
            Vwredsumu = Permute, WideElement, Single, WideElement;
            Vwredsum = Permute, WideElement, Single, WideElement;
            VmvXS = Permute, Absent, Element, Absent;
            Vcpop = Permute, Absent, Mask, Absent;
            Vfirst = Permute, Absent, Mask, Absent;
            Vmsbf = Permute, Mask, Mask, Absent;
            Vmsof = Permute, Mask, Mask, Absent;
            Vmsif = Permute, Mask, Mask, Absent;
            Viota = Permute, Single, Mask, Absent;
            Vid = Arithmetic, Single, Absent, Absent;
            Vmandn = Arithmetic, Mask, Mask, Mask;
            Vmand = Arithmetic, Mask, Mask, Mask;
            Vmor = Arithmetic, Mask, Mask, Mask;
            Vmxor = Arithmetic, Mask, Mask, Mask;
            Vmorn = Arithmetic, Mask, Mask, Mask;
            Vmnand = Arithmetic, Mask, Mask, Mask;
            Vmnor = Arithmetic, Mask, Mask, Mask;
            Vmxnor = Arithmetic, Mask, Mask, Mask;
            Vrgather = Permute, Single, Single, Single;
            Vrgatherei16 = Permute, Single, Single, Sixteen;
            Vslideup = Permute, Single, Single, Absent;
            Vslidedown = Permute, Single, Single, Absent;
            Vslide1up = Permute, Single, Single, Absent;
            Vslide1down = Permute, Single, Single, Absent;
            VmvSX = Permute, Element, Absent, Absent;
            Vcompress = Permute, Single, Single, Mask;
        }
    };
}

/// What the table says of a family.
#[derive(Clone, Copy)]
struct FamilyLine {
    unit: Unit,
    operands: Operands,
}

macro_rules! family_lines {
    ($($name:ident = $unit:ident, $destination:ident, $vs2:ident, $vs1:ident;)*) => {
        [$(FamilyLine {
            unit: Unit::$unit,
            operands: Operands {
                destination: Operand::$destination,
                vs2: Operand::$vs2,
                vs1: Operand::$vs1,
            },
        }),*]
    };
}

macro_rules! family_names {
    ($($name:ident = $unit:ident, $destination:ident, $vs2:ident, $vs1:ident;)*) => {
        [$(stringify!($name)),*]
    };
}

static NAMES: [&'static str; 113] = families!(family_names);

static LINES: [FamilyLine; 113] = families!(family_lines);

impl fmt::Debug for Family {
    fn fmt<W: fmt::Write>(&self, f: &mut fmt::Formatter<W>) -> fmt::Result {
        f.write_str(NAMES[*self as usize])
    }
}

impl Family {
    /// The unit that executes it.
    pub fn unit(self) -> Unit
        ensures { result ≡ unit_of self }
    {
        self.line().unit
    }

    /// Its operands.
    pub fn operands(self) -> Operands
        ensures { result ≡ operands_of self }
    {
        self.line().operands
    }

    /// Its line of the table.
    #[inline(always)]
    fn line(self) -> &'static FamilyLine
        ensures { result.now ≡ family_line self }
    {
        &LINES[self as usize]
    }
}
