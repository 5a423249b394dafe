//! What a record measures or states, and in which unit, by all codes of the standard.

use record_values::{Quantity, UnitName};

/// What a record measures or states.
#[derive(Clone, Copy)]
pub enum FullQuantity {
    /// A quantity that the profile names too.
    Profile(Quantity),
    /// Credit in the local currency.
    Credit,
    /// Debit in the local currency.
    Debit,
    /// The device type.
    DeviceType,
    /// The manufacturer, by its code.
    ManufacturerCode,
    /// Which set of parameters the meter has.
    ParameterSet,
    /// The model, or its version.
    ModelVersion,
    /// The version of the hardware.
    HardwareVersion,
    /// The version of the firmware that measures.
    FirmwareVersion,
    /// The version of other software.
    SoftwareVersion,
    /// Where the customer is.
    CustomerLocation,
    /// The customer.
    Customer,
    /// The access code of the user.
    UserAccessCode,
    /// The access code of the operator.
    OperatorAccessCode,
    /// The access code of the system's operator.
    SystemOperatorAccessCode,
    /// The access code of the developer.
    DeveloperAccessCode,
    /// A password.
    Password,
    /// Which error flags are looked at.
    ErrorMask,
    /// A security key.
    SecurityKey,
    /// The states of digital outputs.
    DigitalOutput,
    /// The states of digital inputs.
    DigitalInput,
    /// The baud rate.
    BaudRate,
    /// How long the meter waits before it answers.
    ResponseDelay,
    /// How often the meter tries again.
    Retries,
    /// The state of what is controlled from afar.
    RemoteControl,
    /// The first storage number of what is stored again and again.
    FirstStorage,
    /// The last storage number of what is stored again and again.
    LastStorage,
    /// How many values a block of storage has.
    StorageBlockSize,
    /// Which tariff and which subunit this is.
    TariffDescriptor,
    /// The time between two stored values.
    StorageInterval,
    /// Data of the operator.
    OperatorData,
    /// The second of the time point.
    TimePointSecond,
    /// How long ago the meter was last read out.
    ReadoutAge,
    /// When the tariff begins.
    TariffStart,
    /// How long the tariff holds.
    TariffDuration,
    /// After how long the tariff comes again.
    TariffPeriod,
    /// A number without a dimension, as a count of pulses.
    Dimensionless,
    /// Data of wireless M-Bus in a record.
    RadioContainer,
    /// The nominal time between two transmissions.
    TransmissionPeriod,
    /// How often the meter was reset.
    ResetCounter,
    /// How often values were cumulated.
    CumulationCounter,
    /// A control signal.
    ControlSignal,
    /// The day of the week.
    DayOfWeek,
    /// The number of the week.
    WeekNumber,
    /// When a day ends.
    DayChangeTime,
    /// Whether parameters are active.
    ParameterActivation,
    /// Information of the supplier.
    SupplierInformation,
    /// How long ago values were last cumulated.
    CumulationAge,
    /// How long the battery has been in use.
    BatteryOperatingTime,
    /// When the battery was changed.
    BatteryChange,
    /// The level at which the meter's radio hears.
    RadioLevel,
    /// When daylight saving begins and ends.
    DaylightSaving,
    /// When the meter listens.
    ListeningWindow,
    /// How long the battery will last.
    RemainingBatteryLife,
    /// How often the meter was stopped.
    StopCount,
    /// Data of a manufacturer's protocol in a record.
    ManufacturerContainer,
    /// Reactive energy.
    ReactiveEnergy,
    /// Apparent energy.
    ApparentEnergy,
    /// Reactive power.
    ReactivePower,
    /// Relative humidity.
    RelativeHumidity,
    /// The phase of one voltage to another.
    VoltagePhase,
    /// The phase of voltage to current.
    CurrentPhase,
    /// A frequency.
    Frequency,
    /// Apparent power.
    ApparentPower,
    /// The temperature between cold and warm.
    TemperatureLimit,
    /// The sum of the greatest powers.
    CumulatedMaximumPower,
}

/// The unit in which a record's value counts.
#[derive(Clone, Copy)]
pub enum FullUnitName {
    /// A unit that the profile names too, or none.
    Profile(UnitName),
    /// months
    Month,
    /// years
    Year,
    /// the local currency
    Currency,
    /// Bd
    Baud,
    /// the time of a bit
    BitTime,
    /// dBm
    DecibelMilliwatt,
    /// kvarh
    KilovarHour,
    /// kVAh
    KilovoltAmpereHour,
    /// Mcal
    Megacalorie,
    /// kvar
    Kilovar,
    /// t
    Tonne,
    /// %
    Percent,
    /// ft3
    CubicFoot,
    /// MW
    Megawatt,
    /// Degrees of an angle.
    Degree,
    /// Hz
    Hertz,
    /// GJ/h
    GigajoulePerHour,
    /// kVA
    KilovoltAmpere,
    /// A unit that isn't metric (EN 13757-3, annex C), which isn't named here.
    NonMetric,
}

/// What a code stands for: what is measured, in which unit, and the power of ten by which the value is multiplied.
#[derive(Clone, Copy)]
pub struct Measure {
    /// What is measured or stated.
    pub quantity: FullQuantity,
    /// In which unit.
    pub unit: FullUnitName,
    /// The power of ten by which the value is multiplied, before any qualifier.
    pub exponent: i8,
}
