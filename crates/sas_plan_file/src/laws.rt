// Laws of plan files.
ghost use Rattle.sas_reader.specs.Laws.{Laws};
ghost use Rattle.sas_reader.specs.System.{Grammar};
ghost use Rattle.sas_reader.specs.About.{AboutLaws};
ghost use Rattle.sas_plan_file.specs.PlanFormat.{plan_format, PlanLineFits, PlanIsFilled};
ghost use Rattle.sas_plan_file.specs.PlanMachine.{plan_node, plan_start};

/// Ensures the laws of plan files. No byte list is a text of two plans. The texts of a plan are its lines, each ended by LF or by CR LF.
/// Bytes have at most one fault, and are live exactly if they have none. Reading any bytes has exactly one result. Lines that begin a plan
/// are all lines of a plan, or become so by adding the line `; cost = 0 (unit cost)`.
pub fn plan_laws()
    ensures laws { Laws plan_format }
    ensures filled { PlanIsFilled }
    ensures grammar { Grammar plan_format PlanLineFits plan_node plan_start }
{}

/// Ensures the laws about the text at a fault of a plan. A fault is about at most one text. It is about at least one, unless a read failed,
/// the bytes are too long, or memory ran out. More bytes don't change what it is about.
pub fn plan_fault_laws()
    ensures { AboutLaws plan_format }
{}
